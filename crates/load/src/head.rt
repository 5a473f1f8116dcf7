// The head of a text: its size, its bytes and its flag line.
ghost use Rattle.load.specs.Head.{ReadsHead};

use super::Refused;
use faults::LoadFault;
use model::{Marks, TEXT_MOST};
use scan::{has_byte, read_line, read_marks};

// What a text begins with.
#[derive(Clone, Copy)]
pub struct Head {
    pub marks: Marks,
    // where the section starts
    pub first: usize,
}

// The head of a text that is small enough, without byte 0, and has a legal flag line.
#[tactic(auto, using(crate::proofs::Laws::lines_empty, scan::proofs::FlagLine::marks_legal, model::proofs::Text::part_front), unfolding(model::specs::Load::load, model::specs::Load::load_lines))]
pub fn read_text_head(text: &[u8]) -> Result<Head, Refused>
    ensures { ReadsHead text.now result }
{
    if TEXT_MOST < text.len() || has_byte(text, 0) {
        return Err(Refused {
            fault: LoadFault::BadText,
            line: 0,
        });
    }
    let unmarked = Refused {
        fault: LoadFault::BadFlags,
        line: 1,
    };
    if text.is_empty() {
        return Err(unmarked);
    }
    let line = read_line(text, 0);
    let marks = read_marks(&text[..line.end]).ok_or(unmarked)?;
    Ok(Head {
        marks,
        first: line.next,
    })
}
