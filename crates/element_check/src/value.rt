//! The tests of a value.
ghost use Rattle.std.specs.Prelude.{◌≡◌, ◌&&◌, ℕ, List, Option, nat_lt, not};
ghost use Rattle.std.specs.Cmp.Lexicographic.{slice_cmp};
ghost use Rattle.std.specs.List.{list_any};
ghost use Rattle.std.specs.Ordering.{nat_cmp};
ghost use Rattle.std.specs.Str.{bytes_eq};
ghost use Rattle.edi_tables.specs.Ascending.{IsAscendingBy};
ghost use Rattle.dir_compile.specs.Compile.{value_name};
ghost use Rattle.edi_tables.specs.declared.element.CodeList.{CodeList as SeenList};
ghost use Rattle.seg_lexer.specs.Value.{octets_of};
ghost use Rattle.seg_lexer.specs.declared.context.Context.{Context as SeenContext};
ghost use Rattle.element_check.specs.Repertoire.{AreAdmitted};
ghost use Rattle.element_check.specs.Tally.{nothing_found, tally_over};
ghost use Rattle.element_check.specs.Value.{is_unlisted as is_unlisted_of, test_results};

use crate::tally::{Tally, scan, typed_length};
use dir_compile::Codes;
use edi_octets::Octets;
use edi_tables::{CodeList, Repr};
use error_ledger::Kind;
use seg_lexer::{Context, Value};
use std::cmp::Ordering;

/// How many tests a value has.
const TESTS: usize = 6;

/// Which tests a value fails, by its representation and the code list that it must be in.
pub(crate) fn test_value<O: Octets>(
    context: &Context,
    repr: Repr,
    list: Option<Codes<'_>>,
    value: &Value<'_, O>,
) -> [(Kind, bool); TESTS]
    ensures { result
        ≡ test_results context.now repr list.entry (octets_of value.now) }
{
    let found = scan(context, repr.class, value);
    results_of(repr, found, is_unlisted(list, value))
}

/// Whether a value of these octets, each of which the level admits, passes all tests, by its representation and the code list
/// that it must be in.
#[inline(always)]
pub fn passes_admitted(
    context: &Context,
    repr: Repr,
    list: Option<Codes<'_>>,
    octets: &[u8],
) -> bool
    requires admitted { AreAdmitted context.now.level octets.now }
    ensures { result ≡ not (list_any (λ test. test.1)
        (test_results context.now repr list.entry octets.now)) }
{
    let Some(length) = typed_length(&context.service, repr.class, octets) else {
        return false;
    };
    if length > usize::from(repr.max) {
        return false;
    }
    if is_too_short(repr, length) {
        return false;
    }
    !is_slice_unlisted(list, octets)
}

/// Which tests are failed by a value of which a scan found this, and that is in its code list or isn't.
fn results_of(repr: Repr, found: Tally, unlisted: bool) -> [(Kind, bool); TESTS]
    ensures { (context : SeenContext) (list : Option SeenList) (value : List ℕ)
        → found ≡ tally_over context repr.class nothing_found value
        → unlisted ≡ is_unlisted_of list value
        → result ≡ test_results context repr list value }
{
    [
        (Kind::Repertoire, found.refused),
        (Kind::WrongType, found.foreign),
        (Kind::Decimal, found.is_no_number(repr.class)),
        (Kind::TooLong, found.counted > usize::from(repr.max)),
        (Kind::TooShort, is_too_short(repr, found.counted)),
        (Kind::Code, unlisted),
    ]
}

/// Whether a value of so many counted octets is below an exact length.
fn is_too_short(repr: Repr, counted: usize) -> bool
    ensures { result ≡ (repr.exact && nat_lt counted repr.max) }
{
    repr.exact && counted < usize::from(repr.max)
}

/// Whether a value isn't in the code list that it must be in, if there is one.
fn is_unlisted<O: Octets>(list: Option<Codes<'_>>, value: &Value<'_, O>) -> bool
    ensures { result ≡ is_unlisted_of list.entry (octets_of value.now) }
{
    match list {
        Some(codes) => !is_listed(codes.list(), value),
        None => false,
    }
}

/// The same for a value of these octets.
fn is_slice_unlisted(list: Option<Codes<'_>>, octets: &[u8]) -> bool
    ensures { result ≡ is_unlisted_of list.entry octets.now }
{
    match list {
        Some(codes) => !codes.knows(octets) && !is_slice_listed(codes.list(), octets),
        None => false,
    }
}

/// Whether a value is one of the codes of a list. They ascend, so it is found by halving.
fn is_listed<O: Octets>(list: &CodeList, value: &Value<'_, O>) -> bool
    requires ordered { IsAscendingBy value_name list.now.values }
    ensures { result ≡ list_any (λ code. bytes_eq code (octets_of value.now)) list.now.values }
{
    list.values
        .items()
        .binary_search_by(|code| order_of(code.octets(), value))
        .is_ok()
}

/// The same for a value of these octets. Most values need not be in a list, or are seen at once to be in it: this is kept out of
/// their way.
#[inline(never)]
fn is_slice_listed(list: &CodeList, octets: &[u8]) -> bool
    requires ordered { IsAscendingBy value_name list.now.values }
    ensures { result ≡ list_any (λ code. bytes_eq code octets.now) list.now.values }
{
    list.values
        .items()
        .binary_search_by(|code| order_of_octets(code.octets(), octets))
        .is_ok()
}

/// How a code compares with these octets in octet order.
fn order_of_octets(code: &[u8], octets: &[u8]) -> Ordering
    ensures { result ≡ slice_cmp nat_cmp code.now octets.now }
{
    let [octet, rest @ ..] = octets else {
        return if code.is_empty() {
            Ordering::Equal
        } else {
            Ordering::Greater
        };
    };
    let [first, later @ ..] = code else {
        return Ordering::Less;
    };
    match first.cmp(octet) {
        Ordering::Equal => order_of_octets(later, rest),
        unequal => unequal,
    }
}

/// How a code compares with a value in octet order. The octets of the value are read up to the first that differs.
fn order_of<O: Octets>(code: &[u8], value: &Value<'_, O>) -> Ordering
    ensures { result ≡ slice_cmp nat_cmp code.now (octets_of value.now) }
{
    let mut rest = code;
    for octet in value.octets() {
        let [first, later @ ..] = rest else {
            return Ordering::Less;
        };
        match first.cmp(&octet) {
            Ordering::Equal => rest = later,
            unequal => return unequal,
        }
    }
    match rest {
        [] => Ordering::Equal,
        [_, ..] => Ordering::Greater,
    }
}

/// Whether any of these tests was failed.
pub(crate) fn is_any_failed(results: &[(Kind, bool)]) -> bool
    ensures { result ≡ list_any (λ test. test.1) results.now }
{
    results.iter().any(|test| test.1)
}
