// The manifest's reader and writer for C (crate host_c). They ask nothing of their caller beyond what C owes (host/monitor.h).
#![tactic(auto)]

ghost use Rattle.std.specs.Prelude.{◌≡◌};
ghost use Rattle.manifest.specs.Reader.{read_manifest};
ghost use Rattle.twin.specs.Asked.{answered};
ghost use Rattle.manifest_c.specs.Write.{host_write};

use fields::Fields;
use manifest::Reading;
use twin::Reply;

// The manifest's fields, or 3 and all zero.
pub fn monitor_manifest_read(bytes: &[u8]) -> Reading
    ensures { result ≡ read_manifest bytes.now }
{
    manifest::read(bytes)
}

// The manifest that has these fields; or 3, or 9.
pub fn monitor_manifest_write(fields: Fields, buffer: &mut [u8]) -> Reply
    ensures { answered result buffer.new ≡ host_write fields buffer.old }
{
    Reply::from(manifest::write(fields, buffer))
}
