// The registers of the two chips.
ghost use Rattle.pair8259.specs.Chips.{Cascaded};

// One chip: a byte each of interrupt requests, interrupt mask and lines in service, with bit n for input n.
#[derive(Clone, Copy, Debug, Default, PartialEq, Eq)]
pub struct Chip {
    pub requests: u8,
    pub mask: u8,
    pub in_service: u8,
}

// The master's in-service bit 2 is set exactly when some slave in-service bit is set.
#[derive(Clone, Copy, Debug, PartialEq, Eq)]
pub struct Chips {
    pub(crate) master: Chip,
    pub(crate) slave: Chip,
    ghost linked: { Cascaded master.in_service slave.in_service },
}
