// Rules that name one lane in place of another.
#![tactic(auto)]

ghost use Rattle.std.specs.Prelude.{◌≡◌, true, ◌+◌, ◌*◌, ◌≤◌, length};
ghost use Rattle.tables.specs.View.{word};
ghost use Rattle.tables.specs.Formed.{rule_formed};
ghost use Rattle.store.specs.Rows.{on_rows};
ghost use Rattle.mentions.specs.Naming as N;
ghost use Rattle.mentions.specs.declared.Rows.TheVariants.{Rules};

use tables::{RIGHT_OF_WAY, RULE, RULE_KIND, RULE_LANES, RULE_PRIORITY, RULE_YIELDING};

// In the list at place k of a row every `from` reads `to`, or goes where `to` stands already.
fn replace_list(row: &mut [u64], k: usize, to: u64, from: u64)
    requires { k + 1 + word k row.old ≤ length row.old }
    ensures { row.new ≡ N.replace_at to from k row.old }
{
    if mentions::lists_lane(row, k, to) {
        row_lists::forget(row, k, from);
        return;
    }
    let start = k + 1;
    let end = start + row[k] as usize;
    slots::replace(&mut row[start..end], from, to);
}

fn replace_rule(row: &mut [u64], to: u64, from: u64)
    requires { (length row.old ≡ 330) × (rule_formed row.old ≡ true) }
    ensures { row.new ≡ N.rule_replaces to from row.old }
{
    let kind = row[RULE_KIND];
    replace_list(row, RULE_LANES, to, from);
    if kind != RIGHT_OF_WAY {
        return;
    }
    replace_list(row, RULE_PRIORITY, to, from);
    replace_list(row, RULE_YIELDING, to, from);
}

// In the lists of every rule.
pub fn replace(rules: &mut [u64], to: u64, from: u64)
    requires { N.table_formed Rules rules.old ≡ true }
    ensures { rules.new ≡ on_rows 330 (N.rule_replaces to from) rules.old }
{
    row_walk::each_row(rules, RULE, |row| replace_rule(row, to, from));
}
