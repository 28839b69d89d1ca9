// Fields of comma-separated text, a byte at a time: where in a field a place is and what is kept of the field, quoting as RFC 4180
// has it. Document 02, §1; specs/ states it for one line. A byte is never looked at before it comes, so a text may come in pieces:
// a CR is kept as one until the byte behind it. What a field says comes from the room below, `values`. An inner room: it serves
// `office`. Nothing is asked of a caller.

#![tactic(auto)]

ghost use Rattle.std.specs.Prelude.{◌≡◌, drop};
ghost use Rattle.fields.specs.Quoting.{bare_act, quoted_act, closed_act, act_of};
ghost use Rattle.fields.specs.Inside.{beginning, is_at_begin, end_step, behind_cr, kept, step_of, may_end, walk_from};

use values::Seen;

const QUOTE: u8 = b'"';

const COMMA: u8 = b',';

const CR: u8 = b'\r';

const LF: u8 = b'\n';

// Where in a field a byte stands: at its beginning, in one without quotes, in one with quotes, and behind a quote that may have
// closed it.
#[derive(Clone, Copy)]
pub enum Place {
    Begin,
    Bare,
    Quoted,
    Closed,
}

// What a byte does: it is one of the field's, it is a quote that is not, it ends the field, or it breaks the quoting.
#[derive(Clone, Copy)]
pub enum Act {
    Keep(Place),
    Skip(Place),
    Cut,
    Break,
}

// Where a text is: the place in a field, what is known of the field, and whether a CR stands in front of what is next.
#[derive(Clone, Copy)]
pub struct Spot {
    pub place: Place,
    pub seen: Seen,
    pub turned: bool,
}

// A byte further in the field, or how the field stopped.
#[derive(Clone, Copy)]
pub enum Step {
    On(Spot),
    Comma,
    Ends,
    Broken,
}

// Outside quotes.
fn act_bare(c: u8) -> Act
    ensures { result ≡ bare_act c }
{
    if c == COMMA {
        return Act::Cut;
    }
    if (c == QUOTE) | ((c == CR) | (c == LF)) {
        return Act::Break;
    }
    Act::Keep(Place::Bare)
}

// Inside quotes.
fn act_quoted(c: u8) -> Act
    ensures { result ≡ quoted_act c }
{
    if c == QUOTE {
        return Act::Skip(Place::Closed);
    }
    if (c == CR) | (c == LF) {
        return Act::Break;
    }
    Act::Keep(Place::Quoted)
}

// Behind a quote that may have closed the field.
fn act_closed(c: u8) -> Act
    ensures { result ≡ closed_act c }
{
    if c == QUOTE {
        return Act::Keep(Place::Quoted);
    }
    if c == COMMA {
        return Act::Cut;
    }
    Act::Break
}

// What a byte does at its place.
fn act_at(place: Place, c: u8) -> Act
    ensures { result ≡ act_of place c }
{
    match place {
        Place::Begin => {
            if c == QUOTE {
                return Act::Skip(Place::Quoted);
            }
            act_bare(c)
        }
        Place::Bare => act_bare(c),
        Place::Quoted => act_quoted(c),
        Place::Closed => act_closed(c),
    }
}

// A line's end at a place in a field: inside quotes it breaks the quoting.
fn end_at(place: Place) -> Step
    ensures { result ≡ end_step place }
{
    match place {
        Place::Quoted => Step::Broken,
        Place::Begin | Place::Bare | Place::Closed => Step::Ends,
    }
}

// The byte behind a CR: an LF ends the line, and any other leaves the CR alone, which breaks the quoting.
fn behind_cr(place: Place, c: u8) -> Step
    ensures { result ≡ behind_cr place c }
{
    if c == LF {
        return end_at(place);
    }
    Step::Broken
}

fn at(place: Place, seen: Seen, turned: bool) -> Step
    ensures { result ≡ kept place seen turned }
{
    Step::On(Spot {
        place,
        seen,
        turned,
    })
}

impl Spot {
    // Where a field begins.
    pub fn begin() -> Self
        ensures { result ≡ beginning }
    {
        Spot {
            place: Place::Begin,
            seen: Seen::none(),
            turned: false,
        }
    }

    // Whether no byte of the field has come yet.
    pub fn is_at_begin(self) -> bool
        ensures { result ≡ is_at_begin self }
    {
        matches!(self.place, Place::Begin) & !self.turned
    }

    // One byte further.
    #[tactic(auto, unfolding(crate::specs::Inside::step_of))]
    pub fn step(self, c: u8) -> Step
        ensures { result ≡ step_of self c }
    {
        let place = self.place;
        let seen = self.seen;
        if self.turned {
            return behind_cr(place, c);
        }
        if c == CR {
            return at(place, seen, true);
        }
        match act_at(place, c) {
            Act::Keep(p) => at(p, seen.with(c), false),
            Act::Skip(p) => at(p, seen, false),
            Act::Cut => Step::Comma,
            Act::Break => Step::Broken,
        }
    }

    // Whether the text may end here: not inside quotes, and not behind a CR.
    pub fn may_end(self) -> bool
        ensures { result ≡ may_end self }
    {
        !matches!(self.place, Place::Quoted) & !self.turned
    }
}

// What stopped a field, where it was then, and the place behind; or the end of the piece.
#[derive(Clone, Copy)]
pub struct Walk {
    pub spot: Spot,
    pub step: Step,
    pub next: usize,
}

// From a place in a piece on, as far as the field goes.
pub fn walk_from(piece: &[u8], at: usize, spot: Spot) -> Walk
    ensures { result ≡ walk_from spot at (drop at piece.now) }
{
    let mut here = spot;
    for i in at..piece.len() {
        let step = here.step(piece[i]);
        let Step::On(next) = step else {
            return Walk {
                spot: here,
                step,
                next: i + 1,
            };
        };
        here = next;
    }
    Walk {
        spot: here,
        step: Step::On(here),
        next: at.max(piece.len()),
    }
}
