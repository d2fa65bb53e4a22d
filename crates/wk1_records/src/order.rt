// The byte of an order of recalculation.
ghost use Rattle.std.specs.Prelude.{◌≡◌};
ghost use Rattle.wk1_records.specs.Kinds.{order_byte};
ghost use Rattle.wk1_records.specs.Meanings.{order_of};

use sheet_store::Order;

// The byte of the natural order.
const NATURAL: u8 = 0;

// The byte of the order by columns.
const COLUMNWISE: u8 = 1;

// The byte of the order by rows.
const ROWWISE: u8 = 255;

/// The byte of an order.
pub fn order_byte(order: Order) -> u8
    ensures { result ≡ order_byte order }
{
    match order {
        Order::Natural => NATURAL,
        Order::Columnwise => COLUMNWISE,
        Order::Rowwise => ROWWISE,
    }
}

/// The order of a byte; any byte that is no other order's is the natural one's.
pub fn order_of(byte: u8) -> Order
    ensures { result ≡ order_of byte }
{
    if byte == COLUMNWISE {
        Order::Columnwise
    } else if byte == ROWWISE {
        Order::Rowwise
    } else {
        Order::Natural
    }
}
