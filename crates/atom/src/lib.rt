// The atoms of a line (document 01, "Fitting a line"). Of the marks they ask for the two brackets alone: whoever looks for many atoms
// hands on two bytes, and not all marks. No public function has a `requires`.
#![tactic(auto)]

ghost use Rattle.std.specs.Prelude.{◌≡◌, ◌<◌, ◌^◌};
ghost use Rattle.atom.specs.Atoms.{brackets, depth_past, AtomAt};

// How many brackets are open past the byte b, where `depth` were.
#[tactic(auto, unfolding(crate::specs::Atoms::depth_past))]
fn depth_past(left: u8, right: u8, b: u8, depth: usize) -> usize
    requires { (0 < depth) × (depth < 2 ^ 63) }
    ensures { result ≡ depth_past (brackets left right) b depth }
{
    if b == left {
        return depth + 1;
    }
    if b == right {
        return depth - 1;
    }
    depth
}

// What a look for an atom comes to: where the atom ends, if there is one, and how many bytes were read.
#[derive(Clone, Copy)]
pub struct Scanned {
    pub end: Option<usize>,
    pub read: usize,
}

// The line's first atom from `at` on. The depth is carried along from byte to byte, so no byte is read twice.
// `at` stays beside the line: fit goes on from places of one line, and numbers what it took up by them.
#[tactic(auto, using(crate::proofs::Atoms::scan_start, crate::proofs::Atoms::scan_end))]
pub fn scan_atom(line: &[u8], at: usize, left: u8, right: u8) -> Scanned
    ensures { AtomAt (brackets left right) line.now at result }
{
    if line.len() <= at {
        return Scanned { end: None, read: 0 };
    }
    let b = line[at];
    if b == right {
        return Scanned { end: None, read: 1 };
    }
    if b != left {
        return Scanned {
            end: Some(at + 1),
            read: 1,
        };
    }
    let mut depth = 1;
    // a range: where the atom ends is a place of the line, and not of what is left of it
    for i in at + 1..line.len() {
        depth = depth_past(left, right, line[i], depth);
        if depth == 0 {
            return Scanned {
                end: Some(i + 1),
                read: i + 1 - at,
            };
        }
    }
    Scanned {
        end: None,
        read: line.len() - at,
    }
}
