// A line's fields.
ghost use Rattle.std.specs.Prelude.{◌≡◌, List, ℕ};
ghost use Rattle.lines.specs.Fields.{field_count, field};

// "One space between fields"
const SPACE: u8 = b' ';

// One more than spaces.
pub fn field_count(text: &[u8]) -> usize
    ensures { result ≡ field_count text.now }
{
    let mut count = 1;
    for c in text {
        count += usize::from(*c == SPACE);
    }
    count
}

pub fn field_of(text: &[u8], k: usize) -> &[u8]
    ensures { result.now ≡ field text.now k }
{
    text.split(|c| *c == SPACE).nth(k).unwrap_or(&[])
}
