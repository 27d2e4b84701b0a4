//! Laws of strict row apply: rows are counted. Each function's contract is a law, and its body is empty.
ghost use Rattle.rows.specs.Counted.{RowsAreCounted, BalancesDecideRows, ChangesDecideRows, OrderIsNoMatter};
ghost use Rattle.rows.specs.SharedOrders.{SharedOrdersExist, CarriersAreNeeded};

/// After transactions there is of each image under each key what there was, less the before images and more
/// the after images.
pub fn rows_are_counted()
    ensures { RowsAreCounted }
{}

/// Two lists of transactions that apply to the same rows, and put as much of each image more than they take,
/// end in equal rows.
pub fn balances_decide_rows()
    ensures { BalancesDecideRows }
{}

/// Two lists of transactions that apply to the same rows and have the same changes, in any two orders, end in
/// equal rows.
pub fn changes_decide_rows()
    ensures { ChangesDecideRows }
{}

/// Two lists of the same transactions, in any two orders, that both apply to the same rows end in equal rows.
pub fn order_is_no_matter()
    ensures { OrderIsNoMatter }
{}

/// There are two orders of transactions that share a key, and both apply.
pub fn shared_orders_exist()
    ensures { SharedOrdersExist }
{}

/// Without the premise that the first rows are rows of tables the law is false.
pub fn carriers_are_needed()
    ensures { CarriersAreNeeded }
{}
