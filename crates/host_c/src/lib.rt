// What firmware in C calls (host/monitor.h): each function is that of a library, under its name, and promises what that one promises.
#![tactic(auto)]

ghost use Rattle.std.specs.Prelude.{◌≡◌};
ghost use Rattle.switch.specs.Record.{entered_record, left_of};
ghost use Rattle.manifest.specs.Reader.{read_manifest};
ghost use Rattle.twin.specs.Asked.{answered};
ghost use Rattle.host.specs.Host.{hosted, host_step};
ghost use Rattle.start_c.specs.Start.{host_start};
ghost use Rattle.manifest_c.specs.Write.{host_write};
ghost use Rattle.devicemap_c.specs.Map.{host_map};

use fields::Fields;
use manifest::Reading;
use state::Running;
use twin::{Monitor, Reply, Request};

#[unsafe(no_mangle)]
pub extern "C" fn monitor_start(m: &mut Monitor, pages: usize, kept: usize) -> u8
    ensures { (result ≡ (host_start pages kept).number) × (m.new ≡ (host_start pages kept).monitor) }
{
    start_c::monitor_start(m, pages, kept)
}

#[unsafe(no_mangle)]
pub extern "C" fn monitor_event(
    m: &mut Monitor,
    q: Request,
    payload: &[u8],
    memory: &mut [u8],
    buffer: &mut [u8],
) -> Reply
    ensures { hosted result m.new memory.new buffer.new ≡ host_step m.old q payload.now memory.old buffer.old }
{
    host::monitor_event(m, q, payload, memory, buffer)
}

#[unsafe(no_mangle)]
pub extern "C" fn monitor_enter(running: &mut Running, slot: usize, out: usize, length: usize)
    ensures { running.new ≡ entered_record slot out length }
{
    switch::monitor_enter(running, slot, out, length);
}

#[unsafe(no_mangle)]
pub extern "C" fn monitor_leave(running: &mut Running) -> Running
    ensures { (result ≡ (left_of running.old).was) × (running.new ≡ (left_of running.old).rest) }
{
    switch::monitor_leave(running)
}

#[unsafe(no_mangle)]
pub extern "C" fn monitor_manifest_read(bytes: &[u8]) -> Reading
    ensures { result ≡ read_manifest bytes.now }
{
    manifest_c::monitor_manifest_read(bytes)
}

#[unsafe(no_mangle)]
pub extern "C" fn monitor_manifest_write(fields: Fields, buffer: &mut [u8]) -> Reply
    ensures { answered result buffer.new ≡ host_write fields buffer.old }
{
    manifest_c::monitor_manifest_write(fields, buffer)
}

#[unsafe(no_mangle)]
pub extern "C" fn monitor_device_map(m: Monitor, buffer: &mut [u8]) -> Reply
    ensures { answered result buffer.new ≡ host_map m buffer.old }
{
    devicemap_c::monitor_device_map(m, buffer)
}
