//! Where a script is, by the octets of it that were handed out, and how many its command must still have.
ghost use Rattle.std.specs.Prelude.{◌≡◌, ◌+◌, ◌<◌, ◌≤◌, ◌^◌, IsTrue, List, Some};
ghost use Rattle.std.specs.Char.{is_ascii_digit};
ghost use Rattle.edit_script.specs.declared.command.Command.{Command};
ghost use Rattle.edit_script.specs.declared.grammar.Grammar.{Grammar};
ghost use Rattle.edit_script.specs.Script.{AreCommands, script_text};
ghost use Rattle.edicheck.specs.Place.{due_at, room_at, longer, place_after, place_after_put, next_place};
ghost use Rattle.edicheck.specs.declared.place.Place.TheVariants.{Name};

// The octets that begin a `replace`.
const REPLACE: [u8; 8] = *b"replace ";

/// Where a script is.
#[derive(Clone, Copy, Debug, PartialEq, Eq)]
pub enum Place {
    /// After so many octets of `replace `. After none of them a command begins, be it a `replace` or another.
    Name(usize),
    /// In the first number of a `replace`: after a digit, or before the first.
    At(bool),
    /// In the second number, likewise.
    Cut(bool),
    /// In the third number, which the digits so far tell.
    Size(Option<usize>),
    /// In what a `replace` puts: so many octets are due, with the LF after it.
    Put(usize),
    /// In another command's line, or in octets of no command: at least so many are due, and an LF ends them.
    Line(usize),
    /// In no script: more was asked for than a command must have.
    Unknown,
}

impl Place {
    /// Where a command begins. Each script leads back there.
    pub fn start() -> Place
        ensures start { result ≡ Name 0 }
        ensures back { (g : Grammar) (cs : List Command) → AreCommands g cs
            → place_after result (script_text cs) ≡ result }
    {
        Place::Name(0)
    }

    /// How many octets the command must still have at least: the shortest is `end` and LF, and the shortest `replace`
    /// is `replace 0 0 0` and two LF.
    pub fn due(self) -> usize
        ensures due { result ≡ due_at self }
        ensures some { 0 < result }
    {
        match self {
            Place::Name(0) => 4,
            Place::Name(1) => 3,
            Place::Name(2) => 2,
            Place::Name(taken) => 15usize.saturating_sub(taken).max(1),
            Place::At(has_digit) => 7 - usize::from(has_digit),
            Place::Cut(has_digit) => 5 - usize::from(has_digit),
            Place::Size(None) => 3,
            Place::Size(Some(_)) => 2,
            Place::Put(due) | Place::Line(due) => due.max(1),
            Place::Unknown => 1,
        }
    }

    /// The place after one more octet.
    pub fn after(self, octet: u8) -> Place
        ensures next { result ≡ next_place self octet }
        ensures falls { due_at self ≤ 1 + room_at result }
    {
        let is_digit = octet.is_ascii_digit();
        match self {
            Place::Name(7) if octet == b' ' => Place::At(false),
            Place::Name(taken) if taken < 7 && octet == REPLACE[taken] => Place::Name(taken + 1),
            Place::At(_) if is_digit => Place::At(true),
            Place::At(true) if octet == b' ' => Place::Cut(false),
            Place::Cut(_) if is_digit => Place::Cut(true),
            Place::Cut(true) if octet == b' ' => Place::Size(None),
            Place::Size(size) if is_digit => Place::Size(Some(with_digit(size, octet))),
            Place::Size(Some(size)) if octet == b'\n' => Place::Put(size.saturating_add(1)),
            Place::Put(_) => self.after_put(1),
            Place::Line(due) if due <= 1 && octet == b'\n' => Place::Name(0),
            Place::Unknown => Place::Unknown,
            _ => Place::Line(self.due() - 1),
        }
    }

    /// The place after so many octets more of those that are put.
    pub fn after_put(self, n: usize) -> Place
        ensures next { result ≡ place_after_put self n }
    {
        match self {
            Place::Put(due) if n < due => Place::Put(due - n),
            _ => Place::Name(0),
        }
    }
}

// The number with one more digit. One that is too large for a script may become another such number.
fn with_digit(number: Option<usize>, digit: u8) -> usize
    requires { IsTrue (is_ascii_digit digit) }
    ensures { result ≡ longer number digit }
{
    let digit = usize::from(digit - b'0');
    number.unwrap_or(0).saturating_mul(10).saturating_add(digit)
}
