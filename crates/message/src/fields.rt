// The listed fields of a message (01, The message and its MAC text).
ghost use Rattle.std.specs.Prelude.{◌≡◌, ◌+◌, ◌≤◌, ◌++◌, length, Some};
ghost use Rattle.lent.specs.declared.characters.Kind.TheVariants.{Digits};
ghost use Rattle.message.specs.declared.fields.Shape.TheVariants.{All};
ghost use Rattle.message.specs.declared.fields.Entry.TheVariants.{Whole, Counted};
ghost use Rattle.arrayvec.specs.ArrayVec.{array_vec_len};
ghost use Rattle.message.specs.Fields;
ghost use Rattle.message.specs.Text;

use arrayvec::ArrayVec;
use lent::Kind;

// The characters of a field's body.
#[derive(Clone, Copy)]
pub(crate) enum Shape {
    // All of one kind.
    All(Kind),
    // C or D, then digits.
    CreditOrDebit,
}

impl Shape {
    // Whether the characters of a body are of the shape.
    #[tactic(auto, unfolding(crate::specs::Fields::shaped))]
    fn fits(self, body: &[u8]) -> bool
        ensures { result ≡ Fields.shaped self body.now }
    {
        match self {
            Shape::All(kind) => lent::all_of_kind(kind, body),
            Shape::CreditOrDebit => match body {
                [b'C' | b'D', digits @ ..] => lent::all_digits(digits),
                _ => false,
            },
        }
    }
}

// How a field's body enters the text.
#[derive(Clone, Copy)]
pub(crate) enum Entry {
    Whole,
    // With two decimal digits of length before it.
    Counted,
    // So many of its first characters.
    First(usize),
}

impl Entry {
    // Appends a body as it enters the text.
    #[tactic(auto, unfolding(crate::specs::Text::entered))]
    pub(crate) fn append(self, text: &mut ArrayVec<u8, 167>, body: &[u8])
        requires { array_vec_len text.old + length (Text.entered self body.now) ≤ 167 }
        ensures { text.new.items ≡ text.old.items ++ Text.entered self body.now }
    {
        match self {
            Entry::Whole => lent::extend(text, body),
            Entry::Counted => {
                lent::extend(text, &lent::two_digits(body.len()));
                lent::extend(text, body);
            }
            Entry::First(count) => lent::extend(text, &body[..count.min(body.len())]),
        }
    }
}

// What is asked of a listed field: the characters of its body, its least and its greatest length, and how it enters the text.
#[derive(Clone, Copy)]
pub(crate) struct Listed {
    shape: Shape,
    least: usize,
    most: usize,
    pub(crate) entry: Entry,
}

impl Listed {
    // A body of so many characters of a kind, which enters whole.
    fn whole(kind: Kind, size: usize) -> Listed
        ensures { result ≡ Fields.asked (All kind) size size Whole }
    {
        Listed {
            shape: Shape::All(kind),
            least: size,
            most: size,
            entry: Entry::Whole,
        }
    }

    // From `least` to `most` digits, which enter with their length.
    fn counted(least: usize, most: usize) -> Listed
        ensures { result ≡ Fields.asked (All Digits) least most Counted }
    {
        Listed {
            shape: Shape::All(Kind::Digits),
            least,
            most,
            entry: Entry::Counted,
        }
    }

    // Whether a body has the length and the characters that are asked.
    #[tactic(auto, unfolding(crate::specs::Fields::formed))]
    pub(crate) fn formed(self, body: &[u8]) -> bool
        ensures { result ≡ Fields.formed (Some self) body.now }
    {
        lent::sized(self.least, self.most, body) && self.shape.fits(body)
    }
}

// What is asked of a field; one that is not listed is walked over and not used.
#[tactic(auto, unfolding(crate::specs::Fields::table, crate::specs::Fields::rule_in, crate::specs::Fields::rule))]
pub(crate) fn rule_of(field: usize) -> Option<Listed>
    ensures { result ≡ Fields.rule field }
{
    match field {
        0 => Some(Listed::whole(Kind::Digits, 4)),
        2 => Some(Listed::counted(13, 19)),
        3 => Some(Listed::whole(Kind::Digits, 6)),
        4 => Some(Listed::whole(Kind::Digits, 12)),
        7 => Some(Listed::whole(Kind::Digits, 10)),
        11 => Some(Listed::whole(Kind::Digits, 6)),
        18 => Some(Listed::whole(Kind::Digits, 4)),
        25 => Some(Listed::whole(Kind::Digits, 2)),
        28 => Some(Listed {
            shape: Shape::CreditOrDebit,
            ..Listed::whole(Kind::Digits, 9)
        }),
        32 => Some(Listed::counted(1, 11)),
        33 => Some(Listed::counted(1, 11)),
        38 => Some(Listed::whole(Kind::LettersOrDigits, 6)),
        39 => Some(Listed::whole(Kind::LettersOrDigits, 2)),
        41 => Some(Listed::whole(Kind::Printable, 8)),
        42 => Some(Listed::whole(Kind::Printable, 15)),
        90 => Some(Listed {
            entry: Entry::First(20),
            ..Listed::whole(Kind::Digits, 42)
        }),
        _ => None,
    }
}
