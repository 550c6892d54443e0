// "Release: every byte of all its pages, code too, becomes 0; the pages open; the slot becomes zero, and if it was running, the running record too."
ghost use Rattle.std.specs.Prelude.{◌≡◌, length};
ghost use Rattle.lists.specs.Bytes.{wipe};
ghost use Rattle.geometry.specs.Geometry.{page_size};
ghost use Rattle.fields.specs.Pages.{pages_of};
ghost use Rattle.change.specs.Turns.{turn_of};
ghost use Rattle.release.specs.Release.{RunsIn};

use change::{Change, Turn};
use events::Answer;
use fields::Fields;

// Every byte of every page of the runs becomes zero.
fn zero_pages(memory: &mut [u8], f: &Fields)
    requires { RunsIn f.now (length memory.old) }
    ensures { memory.new ≡ wipe page_size memory.old (pages_of f.now) }
{
    for x in &f.runs[..f.r] {
        memory::zero_run(memory, x.first as usize, x.count as usize);
    }
}

// Memory's part is done, and the change says what becomes of the state.
pub fn release(memory: &mut [u8], f: &Fields, k: usize, answer: Answer) -> Change
    requires { RunsIn f.now (length memory.old) }
    ensures { (result ≡ turn_of answer (Turn.Frees k)) × (memory.new ≡ wipe page_size memory.old (pages_of f.now)) }
{
    zero_pages(memory, f);
    change::turned(answer, Turn::Frees(k))
}
