//! What distinct keys say of all rows. A program never calls these functions.
ghost use Rattle.std.specs.Prelude.{◌≡◌, ◌≤◌, ◌<◌, ℕ, List, length, map, filter, take, nat_eq, nat_le, not};
ghost use Rattle.std.specs.List.{AllByRecursion, filter_map};
ghost use Rattle.sn_base.specs.Bags.{SameBag};
ghost use Rattle.sn_base.specs.Groups.{Apart, Row, once, same_row};
ghost use Rattle.sn_base.specs.Operators.{Grouping, Op, key_of, pair_of, row_for, through};
ghost use Rattle.sn_chain.specs.Chain.{has_home};
ghost use Rattle.sn_chain.specs.Homes.{homes_by_place};
ghost use Rattle.sn_cost_seats.specs.Tallies.{marked, sum_unmarked, tallied, times_in};
ghost use Rattle.sn_cost_seats.specs.Seats.{row_at, rows_at};
ghost use Rattle.sn_cost_seats.specs.Ways.{AreStateless, come, reach};

/// The rows that overflow at a distinct are counted by the distinct rows: each that finds no home among these counts as often as
/// it comes.
pub fn distinct_rows_count_overflow()
    ensures { (depth slots : ℕ) (rows : List Row) → let keys = once same_row rows in
        sum_unmarked (map (has_home depth slots keys) keys) (tallied rows) ≡ length (filter (λ row. not (has_home depth slots rows row)) rows) }
{}

/// The rows after a distinct, each resident row at its first appearance, are the distinct rows that find a home among these.
pub fn distinct_rows_flow_on()
    ensures { (depth slots : ℕ) (rows : List Row) → let keys = once same_row rows in
        marked (map (has_home depth slots keys) keys) keys ≡ once same_row (filter (λ row. has_home depth slots rows row) rows) }
{}

/// The rows whose key overflows at a reduce are counted by the distinct keys.
pub fn distinct_keys_count_overflow()
    ensures { (depth slots : ℕ) (g : Grouping) (rows : List Row) → let all = map (key_of g) rows in let keys = once same_row all in
        sum_unmarked (map (has_home depth slots keys) keys) (tallied all) ≡ length (filter (λ row. not (has_home depth slots all (key_of g row))) rows) }
{}

/// What a reduce holds is a row for each distinct key that finds a home among these, in another order.
pub fn distinct_keys_are_held()
    ensures { (depth slots : ℕ) (g : Grouping) (rows : List Row) → 1 ≤ slots → let all = map (key_of g) rows in let keys = once same_row all in
        SameBag (map (row_for g (map (pair_of g) rows)) (homes_by_place depth slots all)) (map (row_for g (map (pair_of g) rows)) (marked (map (has_home depth slots keys) keys) keys)) }
{}

/// What comes of rows after operators without state is what comes of each row.
pub fn rows_come_one_by_one()
    ensures { (ops : List Op) → AreStateless ops → (rows : List Row) → through ops rows ≡ filter_map (come ops) rows }
{}

/// As many rows come out of the first `c` operators as rows come through `c` of them.
pub fn rows_are_counted_by_reach()
    ensures { (ops : List Op) (c : ℕ) → AreStateless ops → c ≤ length ops → (rows : List Row) → length (through (take c ops) rows) ≡ length (filter (λ row. nat_le c (reach ops row)) rows) }
{}

/// Rows that are named by the numbers of keys that are apart: the distinct rows are those of the distinct numbers, and a key comes as
/// often as its number.
pub fn numbers_stand_for_keys()
    ensures once { (keys : List Row) → Apart same_row keys → (ids : List ℕ) → AllByRecursion (λ id. id < length keys) ids → once same_row (rows_at keys ids) ≡ rows_at keys (once nat_eq ids) }
    ensures times { (keys : List Row) → Apart same_row keys → (ids : List ℕ) → AllByRecursion (λ id. id < length keys) ids → (id : ℕ) → id < length keys → times_in (rows_at keys ids) (row_at keys id) ≡ length (filter (nat_eq id) ids) }
{}
