// A row of a route table: plain bytes and numbers, lawful or not.

// Where an envelope goes next: to a neighbour, 0 to 254, or to the local office. An `Option` of the number would be no plainer:
// `None` would not say that it stays here, and many a function gives a way or none.
#[derive(Clone, Copy, PartialEq, Eq, Debug)]
pub enum Way {
    Local,
    Neighbour(u8),
}

// Its texts stand in the first bytes of their arrays; one that its flag says is absent is ignored.
// The flags and the lengths stay beside the bytes: the owner of the memory fills a row, with plain bytes and numbers alone.
#[derive(Clone, Copy)]
pub struct RouteRow {
    pub has_address: bool,
    pub address: [u8; 64],
    pub address_len: u8,
    pub has_dataflow: bool,
    pub dataflow: [u8; 256],
    pub dataflow_len: u16,
    pub way: Way,
}
