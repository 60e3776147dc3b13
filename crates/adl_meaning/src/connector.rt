ghost use Rattle.adl_meaning.specs.Connectors.{text_of, connector_of};
ghost use Rattle.std.specs.Prelude.{◌≡◌};
ghost use Rattle.std.specs.Str.{bytes_eq};

/// A kind of connection.
#[derive(Clone, Copy, PartialEq, Eq)]
pub enum Connector {
    /// A call of a procedure and its reply.
    Rpc,
    /// An event.
    Notification,
    /// Memory that several domains see.
    SharedMemory,
    /// The registers of a device.
    Mmio,
    /// An event of a device.
    Interrupt,
    /// A call within one domain.
    Direct,
}

impl Connector {
    /// The connector's word.
    pub fn text(self) -> &'static str
        ensures { result.now ≡ text_of self }
    {
        match self {
            Connector::Rpc => "seL4RPCCall",
            Connector::Notification => "seL4Notification",
            Connector::SharedMemory => "seL4SharedData",
            Connector::Mmio => "seL4HardwareMMIO",
            Connector::Interrupt => "seL4HardwareInterrupt",
            Connector::Direct => "seL4DirectCall",
        }
    }

    /// The connector of a word, `None` exactly where no connector has it.
    pub fn find(word: &[u8]) -> Option<Connector>
        ensures { result ≡ connector_of word.now }
    {
        if is_word(Connector::Rpc, word) {
            Some(Connector::Rpc)
        } else if is_word(Connector::Notification, word) {
            Some(Connector::Notification)
        } else if is_word(Connector::SharedMemory, word) {
            Some(Connector::SharedMemory)
        } else if is_word(Connector::Mmio, word) {
            Some(Connector::Mmio)
        } else if is_word(Connector::Interrupt, word) {
            Some(Connector::Interrupt)
        } else if is_word(Connector::Direct, word) {
            Some(Connector::Direct)
        } else {
            None
        }
    }
}

fn is_word(connector: Connector, word: &[u8]) -> bool
    ensures { result ≡ bytes_eq word.now (text_of connector) }
{
    word == connector.text().as_bytes()
}
