// What names a connection.
ghost use Rattle.std.specs.Prelude.{◌≡◌, None};
ghost use Rattle.name_queues.specs.Ids.{by_id_order, by_id_order_total, by_id_order_same};

use sorted_table::Ordered;
use std::cmp::Ordering;

/// An open or a delete, by its client and its number there; a connection is named by the open that made it.
#[derive(Clone, Copy, Debug, PartialEq, Eq, Drop)]
pub struct ConnId {
    pub client: u32,
    pub request: u32,
}

impl Ordered for ConnId {
    ghost order = { by_id_order };

    ghost abbreviated = { λ id. None };

    fn order(&self, other: &ConnId) -> Ordering {
        match self.client.cmp(&other.client) {
            Ordering::Equal => self.request.cmp(&other.request),
            decided => decided,
        }
    }

    fn abbreviated(&self) -> Option<i64> {
        None
    }

    ghost total = { by_id_order_total };

    ghost same = { by_id_order_same };

    ghost tells = { λ a b told. cc };
}
