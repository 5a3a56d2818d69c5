// What the pairs that a batch selects say of the register at its end.
#![tactic(auto)]

ghost use Rattle.std.specs.Prelude.{◌≡◌, [], length};
ghost use Rattle.meaning.specs.Events.{Lent};
ghost use Rattle.meaning.specs.Register.{Register};
ghost use Rattle.meaning.specs.Reach.{Change};
ghost use Rattle.tables.specs.Columns.{book_of};
ghost use Rattle.tables.specs.Layouts.{sheet_in, register_sheet};
ghost use Rattle.checks.specs.Given.{Given};
ghost use Rattle.batch_selection.specs.Ended.{Ended};
ghost use Rattle.batch_judge.specs.Judged.{end_outcome, Judges};

use batch_selection::selected_pairs;
use tables::{Answer, Counts, Sheet};

// What the listed pairs say, and how many there are.
#[derive(Clone, Copy)]
pub struct Judged {
    pub answer: Answer,
    pub pairs: u32,
}

// Lists the pairs that the batch selects, and finds the first of them that is broken at its end. 14 is met before a word is written.
pub fn judge(
    n: Counts,
    sheet: &Sheet,
    met: &[u32; 256],
    loss_count: u32,
    losses: &[u32; 8704],
    list: &mut [u32],
) -> Judged
    requires { (Given n (register_sheet sheet.now))
        × ((c : Change) × Ended c n (sheet_in sheet.now) met.now loss_count losses.now) }
    ensures { let s = sheet_in sheet.now in
        (c : Change) → Ended c n s met.now loss_count losses.now → (lent : Lent) → lent.words ≡ length list.old → (g : Register)
        → Judges (end_outcome (book_of n s) lent g c) list.old result list.new }
{
    let mut index = [0u16; 81920];
    link_index::index(n.objects, sheet.objects, n.links, sheet.links, &mut index);
    let mut marks = [0u32; 1024];
    let count = selected_pairs(n, sheet, &index, met, loss_count, losses, &mut marks);
    if list.len() < (count as usize) * 2 {
        return Judged {
            answer: Answer::Refused(14, 0),
            pairs: 0,
        };
    }
    pair_list::write(n, &marks, sheet.objects, list);
    let answer = pair_list::search(n, sheet, &index, &marks);
    Judged {
        answer,
        pairs: count,
    }
}
