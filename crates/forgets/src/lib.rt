// Rows of a table that forget a lane.
#![tactic(auto)]

ghost use Rattle.std.specs.Prelude.{◌≡◌, true, ◌+◌, ◌*◌, ◌≤◌, length};
ghost use Rattle.tables.specs.Formed.{lane_formed, rule_formed};
ghost use Rattle.store.specs.Rows.{on_rows};
ghost use Rattle.mentions.specs.Naming as N;
ghost use Rattle.mentions.specs.declared.Rows.TheVariants.{Rules, Orphans};

use mentions::Rows;
use tables::{
    JUNCTION_LANES, LEFT_SLOT, NONE, PREDECESSORS, RIGHT_OF_WAY, RIGHT_SLOT, ROAD_LANES, RULE_KIND,
    RULE_LANES, RULE_PRIORITY, RULE_YIELDING, SUCCESSORS,
};

// A slot that names the lane is freed.
fn free(row: &mut [u64], k: usize, id: u64)
    requires { k + 2 ≤ length row.old }
    ensures { row.new ≡ N.free_at id k row.old }
{
    if mentions::slot_names(row, k, id) {
        row[k] = NONE;
    }
}

pub fn forget_lane(row: &mut [u64], id: u64)
    requires { (length row.old ≡ 52) × (lane_formed row.old ≡ true) }
    ensures { row.new ≡ N.lane_forgets id row.old }
{
    row_lists::forget(row, SUCCESSORS, id);
    row_lists::forget(row, PREDECESSORS, id);
    free(row, RIGHT_SLOT, id);
    free(row, LEFT_SLOT, id);
}

fn forget_rule(row: &mut [u64], id: u64)
    requires { (length row.old ≡ 330) × (rule_formed row.old ≡ true) }
    ensures { row.new ≡ N.rule_forgets id row.old }
{
    let kind = row[RULE_KIND];
    row_lists::forget(row, RULE_LANES, id);
    if kind != RIGHT_OF_WAY {
        return;
    }
    row_lists::forget(row, RULE_PRIORITY, id);
    row_lists::forget(row, RULE_YIELDING, id);
}

fn forget_row(row: &mut [u64], rows: Rows, id: u64)
    requires { (length row.old ≡ N.row_words rows) × (N.row_formed rows row.old ≡ true) }
    ensures { row.new ≡ N.forgets rows id row.old }
{
    match rows {
        Rows::Lanes => {
            forget_lane(row, id);
        }
        Rows::Roads => {
            row_lists::forget(row, ROAD_LANES, id);
        }
        Rows::Junctions => {
            row_lists::forget(row, JUNCTION_LANES, id);
        }
        Rows::Rules => {
            forget_rule(row, id);
        }
        Rows::Orphans => {
            forget_rule(row, id);
        }
    }
}

// Every row forgets the lane.
pub fn forget(t: &mut [u64], rows: Rows, id: u64)
    requires { N.table_formed rows t.old ≡ true }
    ensures { t.new ≡ on_rows (N.row_words rows) (N.forgets rows id) t.old }
{
    let s = mentions::row_words(rows);
    let n = t[0] as usize;
    for i in 0..n {
        let at = 1 + i * s;
        let end = at + s;
        forget_row(&mut t[at..end], rows, id);
    }
}
