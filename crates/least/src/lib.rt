//! The choosing rule: of the eligible elements the least by its key, of equals the one that stands
//! first. One search serves requests by their sector and applications by their virtual times.

#![tactic(auto)]

ghost use Rattle.std.specs.Prelude.{◌≡◌, Bool, MatchOption};
ghost use Rattle.std.specs.Cmp.{IsStrictWeakOrder};
ghost use Rattle.least.specs.Choice.{FirstLeast, NoneEligible, place, turned};

/// A question put to a row of elements: which of them are eligible, and which of two comes before
/// the other by its key. The question carries what both depend on, as the head's position.
// A comparison and no key, a trait and no closures: a question may order by more than one number, and only an impl can owe the law that it is an order.
pub trait Query {
    type Item;

    ghost eligible: { Self → Self.Item → Bool };

    ghost before: { Self → Self.Item → Self.Item → Bool };

    fn is_eligible(&self, item: &Self::Item) -> bool
        ensures { result ≡ eligible self.now item.now };

    fn is_before(&self, item: &Self::Item, other: &Self::Item) -> bool
        ensures { result ≡ before self.now item.now other.now };

    // The keys are in a total order: any two compare, and equals stay equals.
    ghost ranks: { (q : Self) → IsStrictWeakOrder (before q) };
}

/// Where the first least eligible element stands; none exactly when no element is eligible. The element
/// held gives way only to one that comes strictly before it, and so of equals the first is held.
pub fn first_least<Q: Query>(query: &Q, items: &[Q::Item]) -> Option<usize>
    ensures place { result ≡ place (Q.Query.eligible query.now) (Q.Query.before query.now) items.now }
    ensures meaning { MatchOption result (NoneEligible (Q.Query.eligible query.now) items.now) (FirstLeast (Q.Query.eligible query.now) (Q.Query.before query.now) items.now) }
{
    let mut least = None;
    for (place, item) in items.iter().enumerate() {
        turn(query, &mut least, place, item);
    }
    least.map(|(place, _)| place)
}

/// One turn of the search, from the front on: what is held, with its place, once `item` is looked at.
fn turn<'a, Q: Query>(
    query: &Q,
    held: &mut Option<(usize, &'a Q::Item)>,
    place: usize,
    item: &'a Q::Item,
)
    ensures { held.new ≡ turned (Q.Query.eligible query.now) (Q.Query.before query.now) held.old place item.entry }
{
    if query.is_eligible(item) && held.is_none_or(|(_, least)| query.is_before(item, least)) {
        *held = Some((place, item));
    }
}
