// The raises of a search for weights: one after the other, until every rule of a table loses weight or the first that does not cannot be raised.
#![tactic(auto)]

ghost use Rattle.std.specs.Prelude.{◌≡◌, length};
ghost use Rattle.model.specs.Table.{table_of};
ghost use Rattle.raises.specs.Search.{most_raises, sought_as, search_from};

use model::RuleNumber;
use rule_weights::good::GoodTable;
use rule_weights::rules;

// How many raises there can be: of 32 weights by 254 each, one at a time.
const MOST_RAISES: usize = 8128;

// Raises these weights until every rule loses weight, or the first that does not cannot be raised. Answers with that rule.
pub fn search(table: &GoodTable, weights: &mut [u8]) -> Option<RuleNumber>
    requires { length weights.old ≡ table.now.reading.now.symbols }
    ensures { sought_as weights.new result ≡ search_from most_raises (table_of table.now.bytes.now).rules weights.old }
{
    for _ in 0..MOST_RAISES {
        let heavy = rules::first_heavy(table, weights)?;
        let Some(raise) = raise::raise(&table.rule(heavy.0), weights) else {
            return Some(heavy);
        };
        weights[usize::from(raise.symbol.0)] = raise.weight;
    }
    rules::first_heavy(table, weights)
}
