//! The edits of a drill.
ghost use Rattle.std.specs.Prelude.{◌≡◌, ◌+◌, ◌<◌, ◌≤◌, length};
ghost use Rattle.drill_maker.specs.Edit.{cut_of, edit_of, number_after, number_at, octets_of_pair};
ghost use Rattle.drill_maker.specs.EditView.{edit_seen};
ghost use Rattle.edi_octets.specs.declared.octets.TheConstants.{LONGEST_TEXT};

/// An edit: `put` comes in place of the `cut` octets at octet `at`, from 0.
#[derive(Clone, Copy, Debug, PartialEq, Eq)]
pub struct DrillEdit {
    pub at: u64,
    pub cut: u64,
    pub put: &'static [u8],
}

/// Edit `j`, from 0, of a text of this length, for the number `x`.
///
/// Even edits put octets, and each odd one takes as many away as the edit before it put; a text that it is made for has
/// these. It takes no memory.
pub fn make_edit(j: u32, x: u64, length: u64) -> DrillEdit
    requires small { x ≤ 999999999 }
    requires short { length ≤ LONGEST_TEXT }
    requires room { cut_of j ≤ length }
    ensures edit { edit_seen result ≡ edit_of j x length }
    ensures within { result.at + result.cut ≤ length }
{
    let pair = j / 2;
    let number = number_at(x, pair + 1);
    let octets = octets_of_pair(pair);
    if j % 2 == 0 {
        return DrillEdit {
            at: number % (length + 1),
            cut: 0,
            put: octets,
        };
    }
    let cut = octets.len() as u64;
    DrillEdit {
        at: number % (length - cut + 1),
        cut,
        put: b"",
    }
}

// Number `p`, from 0, of those that begin with `x`.
fn number_at(x: u64, p: u32) -> u64
    requires { x < 2147483648 }
    ensures { result ≡ number_at x p }
{
    let mut number = x;
    for step in 0..p {
        number = number_after(number);
    }
    number
}

// The number after this one.
fn number_after(number: u64) -> u64
    requires { number < 2147483648 }
    ensures value { result ≡ number_after number }
    ensures small { result < 2147483648 }
{
    (1_103_515_245 * number + 12_345) % 2_147_483_648
}

// What a pair of edits puts and takes away.
fn octets_of_pair(pair: u32) -> &'static [u8]
    ensures { result.now ≡ octets_of_pair pair }
{
    if pair % 2 == 0 { b"?" } else { b"QTY+21:5'" }
}
