//! Laws of the packet bus: what applications see of it, and when it has room.

ghost use Rattle.lc_model.specs.Laws.Bus.{PublicationIsSeen, PipeIsSeen, RemovalIsSeen, ReceiptIsSeen, HasRoom, FillsByOne};

/// After each call of the bus, the pipes as applications see them are those of the host in numbers.
pub fn bus_is_seen()
    ensures publication { PublicationIsSeen }
    ensures pipe { PipeIsSeen }
    ensures removal { RemovalIsSeen }
    ensures receipt { ReceiptIsSeen }
{}

/// If fewer than 72 packets wait in each pipe, a packet can be published, and each pipe gains at most one.
pub fn bus_has_room()
    ensures room { HasRoom }
    ensures fills { FillsByOne }
{}
