//! Two accesses that may run together.

ghost use Rattle.std.specs.Prelude.{◌≡◌, ◌↔◌, map, nat_eq};
ghost use Rattle.std.proofs.Common.{rules};
ghost use Rattle.std.specs.Cmp.{partial_order_from_own_ties};
ghost use Rattle.std.specs.Cmp.Lexicographic.{pointwise, slice_cmp};
ghost use Rattle.std.specs.Cmp.Rules.{comparing};
ghost use Rattle.std.specs.Ordering.{nat_cmp, on, as_partial_cmp};
ghost use Rattle.sections.specs.Member.{Member};
ghost use Rattle.effects.specs.Translation.{access as access_of};
ghost use Rattle.parallel_relation.specs.Order.{Ascends, is_less, access_key, meeting_key, meeting_of};
ghost use Rattle.parallel_relation.specs.Order.{Meeting as PlainMeeting};
ghost use Rattle.parallel_relation.specs.Translation.{meeting as plain, key_in};

use effects::access::Access;
use std::cmp::Ordering;

/// Two accesses that may run together, in the names of the procedure in which they do. The first
/// access has the smaller label. If the labels are equal, it has the smaller section. If the
/// sections are equal too, it is the read.
#[derive(Clone, Copy, Debug)]
pub struct Meeting {
    pub first: Access,
    pub second: Access,
}

impl Meeting {
    /// Returns the meeting of two accesses, given in either order.
    pub fn of(one: Access, other: Access) -> Meeting
        ensures { plain result ≡ meeting_of (access_of one, access_of other) }
    {
        if is_before(other, one) {
            Meeting {
                first: other,
                second: one,
            }
        } else {
            Meeting {
                first: one,
                second: other,
            }
        }
    }

    /// Returns the numbers by which meetings are ordered: both labels, then what each access does.
    fn key(self) -> [usize; 6]
        ensures { result ≡ meeting_key (plain self) }
    {
        [
            self.first.label as usize,
            self.second.label as usize,
            self.first.section.number,
            usize::from(self.first.write),
            self.second.section.number,
            usize::from(self.second.write),
        ]
    }
}

/// Returns whether an access comes before another in a meeting.
pub fn is_before(access: Access, other: Access) -> bool
    ensures { result ≡ is_less (access_key (access_of access)) (access_key (access_of other)) }
{
    key_of(access) < key_of(other)
}

/// Returns the numbers by which accesses are ordered.
fn key_of(access: Access) -> [usize; 3]
    ensures { result ≡ access_key (access_of access) }
{
    [
        access.label as usize,
        access.section.number,
        usize::from(access.write),
    ]
}

/// Sorts meetings, and removes duplicates.
pub fn put_in_order(meetings: &mut Vec<Meeting>)
    ensures ascending { Ascends (map plain meetings.new.items) }
    ensures same { (m : PlainMeeting)
        → Member m (map plain meetings.new.items) ↔ Member m (map plain meetings.old.items) }
{
    meetings.sort_unstable();
    meetings.dedup();
}

impl PartialEq for Meeting {
    ghost eq = { on key_in (pointwise nat_eq) };

    ghost laws = { Prim.search (comparing, rules) };

    fn eq(&self, other: &Meeting) -> bool {
        self.key() == other.key()
    }
}

impl Eq for Meeting {
    ghost laws = { Prim.search (comparing, rules) };
}

impl PartialOrd for Meeting {
    ghost partial_cmp = { as_partial_cmp (on key_in (slice_cmp nat_cmp)) };

    ghost laws = { partial_order_from_own_ties (Prim.search (comparing, rules)) (Prim.search (comparing, rules)) };

    fn partial_cmp(&self, other: &Meeting) -> Option<Ordering> {
        Some(self.cmp(other))
    }
}

impl Ord for Meeting {
    ghost cmp = { on key_in (slice_cmp nat_cmp) };

    ghost total = { Prim.search (comparing, rules) };

    ghost matches_partial_cmp = { Prim.search (comparing, rules) };

    ghost matches_eq = { Prim.search (comparing, rules) };

    fn cmp(&self, other: &Meeting) -> Ordering {
        self.key().cmp(&other.key())
    }
}
