//! ORDER BY.

ghost use Rattle.std.specs.Prelude.{◌≡◌};
ghost use Rattle.qc_types.specs.Answers.{Gives};
ghost use Rattle.qc_resolve.specs.Validated.{order_validated};

use crate::columns::find_column;
use crate::resolved::{OrderKey, OrderKeys};
use crate::scope::Scope;
use qc_sql::statements::Order;
use qc_types::{Or, SqlError};
use std::alloc::Global;

/// The columns by which rows are sorted, or the first refusal.
pub fn order_keys(alloc: Global, scope: &Scope, orders: &[Order]) -> Result<OrderKeys, Or<SqlError>>
    ensures { Gives (λ ks. ks) (λ e. e) result (order_validated scope.now orders.now) }
{
    let mut keys = OrderKeys::new(alloc);
    for order in orders {
        let place = find_column(alloc, scope, &order.column)?.place;
        keys.push(OrderKey {
            desc: order.desc,
            place,
        })?;
    }
    Ok(keys)
}
