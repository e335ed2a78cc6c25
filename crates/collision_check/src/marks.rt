//! What is known of each tag of a table, after an entry.
ghost use Rattle.std.specs.Prelude.{◌≡◌, ◌<◌, Some, length, slice_set};
ghost use Rattle.collision_check.specs.Marks.{mark_at, met_in, met_next, met_once};

/// The followers with one tag that were met: the only one, or two and more.
#[derive(Clone, Copy)]
pub enum Met {
    Once(u16),
    Twice,
}

/// What is known of a tag after this entry. It says nothing after another.
#[derive(Clone, Copy)]
pub struct Mark {
    pub entry: u16,
    pub met: Met,
}

/// The only follower of an entry with this tag that was met before, and notes this one. A tag is given by its number.
#[inline]
pub fn meet(marks: &mut [Option<Mark>], entry: u16, number: u16, follower: u16) -> Option<u16>
    requires { number < length marks.old }
    ensures first { result ≡ met_once (met_in entry (mark_at marks.old number)) }
    ensures marks { let met = met_next (met_in entry (mark_at marks.old number)) follower in
        marks.new ≡ slice_set marks.old number (Some (record { entry = entry; met = met })) }
{
    let mark = &mut marks[usize::from(number)];
    let before = met_after(*mark, entry);
    let met = match before {
        None => Met::Once(follower),
        Some(_) => Met::Twice,
    };
    *mark = Some(Mark { entry, met });
    match before {
        Some(Met::Once(first)) => Some(first),
        _ => None,
    }
}

/// What a mark says of the followers of this entry.
#[inline]
fn met_after(mark: Option<Mark>, entry: u16) -> Option<Met>
    ensures { result ≡ met_in entry mark }
{
    match mark {
        Some(mark) if mark.entry == entry => Some(mark.met),
        _ => None,
    }
}
