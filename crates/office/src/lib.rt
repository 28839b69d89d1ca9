// Sheets from the growers' office: comma-separated text as a plan. Document 02, §1; specs/ states it in that order. A text may come
// in pieces, cut anywhere: `begin`, `feed` for each piece, `finish`; `import` takes one that is there whole. What is known of a text
// that has come so far is told by `office_text`. The rules for records are those of the file reader, asked of `plan`.

#![tactic(auto)]

ghost use Rattle.std.specs.Prelude.{◌≡◌};
ghost use Rattle.office.specs.Sheets.{import_of};
ghost use Rattle.office.specs.Inside.{judged};
ghost use Rattle.office.specs.Feeding.{finished_of};

pub use cells::{COLUMN_COUNT, NO_CODE, UNREADABLE};
use office_text::last_line;
pub use office_text::{BROKEN_QUOTING, Feeding, begin, feed};
use plan::{ACCEPTED, MOST_RECORDS, Plan, Record, check};

// What a text is refused with: a number, and the first bad line, or the place that the file reader names.
#[derive(Clone, Copy)]
pub struct Refused {
    pub number: u32,
    pub line: usize,
}

// The plan of so many records, judged as the file reader does.
#[tactic(auto, unfolding(crate::specs::Inside::judged))]
fn judge(records: [Record; MOST_RECORDS], count: usize) -> Result<Plan, Refused>
    ensures { result ≡ judged count records }
{
    let plan = Plan {
        count: count.min(MOST_RECORDS + 1) as u32,
        records,
    };
    let found = check(plan);
    if found.number != ACCEPTED {
        return Err(Refused {
            number: found.number,
            line: found.place as usize,
        });
    }
    Ok(plan)
}

// The text has ended: the plan with a record for each line, or the number and the first bad line.
#[tactic(auto, unfolding(crate::specs::Feeding::answered))]
pub fn finish(state: Feeding) -> Result<Plan, Refused>
    ensures { result ≡ finished_of state }
{
    let last = last_line(state);
    if last.number != ACCEPTED {
        return Err(Refused {
            number: last.number,
            line: last.lines,
        });
    }
    judge(last.records, last.lines)
}

// Imports a text that is there whole.
pub fn import(text: &[u8]) -> Result<Plan, Refused>
    ensures { result ≡ import_of text.now }
{
    finish(feed(begin(), text))
}
