// "the measurement is SHA-1 of the contents of its pages in run order": hashed out of the lent memory, run by run, with no copy.
ghost use Rattle.std.specs.Prelude.{◌≡◌, length};
ghost use Rattle.lists.specs.Bytes.{gather};
ghost use Rattle.geometry.specs.Geometry.{page_size};
ghost use Rattle.fields.specs.Pages.{pages_of};
ghost use Rattle.sha_1.specs.Sha1.{sha1};
ghost use Rattle.release.specs.Release.{RunsIn};

use fields::Fields;
use geometry::Geometry;

pub fn measured(memory: &[u8], f: &Fields) -> sha_1::Digest
    requires { RunsIn f.now (length memory.now) }
    ensures { result.bytes ≡ sha1 (gather page_size memory.now (pages_of f.now)) }
{
    let mut h = sha_1::start();
    for x in &f.runs[..f.r] {
        let at = x.first as usize * Geometry::PAGE;
        let end = at + x.count as usize * Geometry::PAGE;
        h = sha_1::taken(h, &memory[at..end]);
    }
    sha_1::finished(h, &memory[..0])
}
