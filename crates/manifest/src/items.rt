// What a manifest has many of: runs and entries, in 8 bytes each.
ghost use Rattle.std.specs.Prelude.{◌≡◌, ℕ, ◌+◌, ◌*◌, ◌≤◌, List, Option, length};
ghost use Rattle.std.specs.List.{flat_map};
ghost use Rattle.std.proofs.lemmas.List.Edits.{sets};
ghost use Rattle.manifest.specs.Layout.{item_size, run_bytes, entry_bytes};
ghost use Rattle.manifest.specs.Reader.{run_of, entry_of};
ghost use Rattle.manifest.specs.Items.{run_long, entry_long};

use crate::ITEM;
use fields::{Entry, Run};

pub trait Item: Copy {
    ghost item_of: { List ℕ → ℕ → Option Self };

    ghost bytes_of: { Self → List ℕ };

    // The item whose bytes begin at a place, if it is right by itself.
    fn read(bytes: &[u8], at: usize) -> Option<Self>
        requires { at + item_size ≤ length bytes.now }
        ensures { result ≡ item_of bytes.now at };

    fn bytes(self) -> [u8; ITEM]
        ensures { result ≡ bytes_of self };

    ghost long: { (x : Self) → length (bytes_of x) ≡ item_size };
}

impl Item for Run {
    ghost item_of = { run_of };

    ghost bytes_of = { run_bytes };

    ghost long = { run_long };

    fn read(bytes: &[u8], at: usize) -> Option<Run> {
        let x = Run {
            kind: bytes[at],
            count: u16::from_le_bytes([bytes[at + 2], bytes[at + 3]]),
            first: u32::from_le_bytes([bytes[at + 4], bytes[at + 5], bytes[at + 6], bytes[at + 7]]),
        };
        let right = keeps::run_right(x);
        if (bytes[at + 1] == 0) & right {
            Some(x)
        } else {
            None
        }
    }

    fn bytes(self) -> [u8; ITEM] {
        let count = self.count.to_le_bytes();
        let first = self.first.to_le_bytes();
        [
            self.kind, 0, count[0], count[1], first[0], first[1], first[2], first[3],
        ]
    }
}

impl Item for Entry {
    ghost item_of = { entry_of };

    ghost bytes_of = { entry_bytes };

    ghost long = { entry_long };

    fn read(bytes: &[u8], at: usize) -> Option<Entry> {
        let x = Entry {
            address: u32::from_le_bytes([bytes[at], bytes[at + 1], bytes[at + 2], bytes[at + 3]]),
            input: u16::from_le_bytes([bytes[at + 4], bytes[at + 5]]),
            output: u16::from_le_bytes([bytes[at + 6], bytes[at + 7]]),
        };
        if keeps::lengths_right(x) {
            Some(x)
        } else {
            None
        }
    }

    fn bytes(self) -> [u8; ITEM] {
        let address = self.address.to_le_bytes();
        let input = self.input.to_le_bytes();
        let output = self.output.to_le_bytes();
        [
            address[0], address[1], address[2], address[3], input[0], input[1], output[0],
            output[1],
        ]
    }
}

// The bytes of all items, from a place on.
pub fn put_all<T: Item>(buffer: &mut [u8], at: usize, items: &[T])
    requires { at + item_size * length items.now ≤ length buffer.old }
    ensures { buffer.new ≡ sets buffer.old at (flat_map T.bytes_of items.now) }
{
    for (k, x) in items.iter().enumerate() {
        let from = at + ITEM * k;
        buffer[from..from + ITEM].copy_from_slice(&x.bytes());
    }
}
