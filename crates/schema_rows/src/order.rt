// Refusal 26, the order of lent rows: whether a row may follow the rows before it.
ghost use Rattle.std.specs.Prelude.{◌≡◌, true, false, ◌≤◌, length, MatchOption};
ghost use Rattle.definition.specs.LentRows.{row_order};
ghost use Rattle.schema_rows.specs.Order.{is_standing, fits, kind_after, place_after, place_told};

use ast::kinds;

// Where the next row stands: under the row 4 or a type row, at or after a place of that kind's order.
#[derive(Clone, Copy)]
pub struct RowPlace {
    pub kind: u32,
    pub place: u32,
    ghost standing: { (4 ≤ kind)
        × (kind ≤ 10) },
}

// Where the row after any row stands, whether or not that row fits: where it doesn't, the kind may be one under which no row stands.
#[derive(Clone, Copy)]
pub struct NextPlace {
    pub kind: u32,
    pub place: u32,
}

// The place of a kind in the order under the row 4, if it has one: directive uses, the three roots one after another, directive definitions.
#[tactic(auto, unfolding(definition::specs::Cards::place_in, definition::specs::LentRows::row_order, definition::specs::Lists::any, crate::specs::Order::place_told))]
fn schema_place(what: u32) -> Option<u32>
    ensures { result ≡ place_told 4 what }
{
    match what {
        kinds::DIRECTIVE => Some(0),
        kinds::QUERY => Some(1),
        kinds::MUTATION => Some(2),
        kinds::SUBSCRIPTION => Some(3),
        kinds::DIRECTIVE_DEFINITION => Some(4),
        _ => None,
    }
}

// The place of a kind in the order under a row, if it has one. Under a type the rows have the order of the type's parts.
#[tactic(auto, using(crate::proofs::OrderLaws::order_under), unfolding(crate::specs::Order::place_told))]
fn place_under(kind: u32, what: u32) -> Option<u32>
    requires { (4 ≤ kind)
        × (kind ≤ 10) }
    ensures { result ≡ place_told kind what }
{
    if kind == kinds::SCHEMA_DEFINITION {
        return schema_place(what);
    }
    let place = kinds::place_of(kind, what);
    (place < kinds::places_under(kind)).then_some(place)
}

// How many places there are under a row.
#[tactic(auto, using(crate::proofs::OrderLaws::order_under), unfolding(definition::specs::LentRows::row_order))]
fn places_under(kind: u32) -> u32
    requires { (4 ≤ kind)
        × (kind ≤ 10) }
    ensures { result ≡ length (row_order kind) }
{
    if kind == kinds::SCHEMA_DEFINITION {
        return 5;
    }
    kinds::places_under(kind)
}

// Where the row after one stands; before the row 4 the kind is 0. A row that has no place in the order stands past the last, as in ast::kinds.
#[tactic(auto, using(crate::proofs::OrderLaws::standing_range, crate::proofs::OrderLaws::place_told_or), unfolding(crate::specs::Order::kind_after, crate::specs::Order::place_after))]
pub fn place_after(kind: u32, what: u32) -> NextPlace
    requires { is_standing kind ≡ true }
    ensures { (result.kind ≡ kind_after kind what)
        × (result.place ≡ place_after kind what) }
{
    if kind == 0 || kinds::is_type(what) {
        return NextPlace {
            kind: what,
            place: 0,
        };
    }
    NextPlace {
        kind,
        place: place_under(kind, what).unwrap_or(places_under(kind)),
    }
}

impl RowPlace {
    // Where the row after a first row of a kind stands, if a row of that kind may be the first: only a row 4.
    #[tactic(auto, unfolding(crate::specs::Order::is_standing, crate::specs::Order::fits, crate::specs::Order::kind_after, crate::specs::Order::place_after))]
    pub fn first(what: u32) -> Option<RowPlace>
        ensures { MatchOption result (fits 0 0 what ≡ false)
            (λ next. (fits 0 0 what ≡ true)
            × (next.kind ≡ kind_after 0 what)
            × (next.place ≡ place_after 0 what)) }
    {
        (what == kinds::SCHEMA_DEFINITION).then_some(RowPlace {
            kind: kinds::SCHEMA_DEFINITION,
            place: place_after(0, what).place,
        })
    }

    // Where the row after one of a kind stands, if that row may follow: types anywhere and other kinds in order, each root once.
    #[tactic(auto, using(crate::proofs::OrderLaws::range_standing), unfolding(definition::specs::Cards::is_type, crate::specs::Order::fits, crate::specs::Order::kind_after, crate::specs::Order::place_after, crate::specs::Order::place_told, definition::specs::LentRows::in_place, definition::specs::LentRows::row_place))]
    pub fn after(self, what: u32) -> Option<RowPlace>
        ensures { MatchOption result (fits self.kind self.place what ≡ false)
            (λ next. (fits self.kind self.place what ≡ true)
            × (next.kind ≡ kind_after self.kind what)
            × (next.place ≡ place_after self.kind what)) }
    {
        if kinds::is_type(what) {
            return Some(RowPlace {
                kind: what,
                place: place_after(self.kind, what).place,
            });
        }
        let place = place_under(self.kind, what)?;
        if place < self.place {
            return None;
        }
        if self.place == place && kinds::is_root(what) {
            return None;
        }
        Some(RowPlace {
            kind: self.kind,
            place,
        })
    }
}
