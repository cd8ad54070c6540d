//! The kinds of interfaces, with their default bandwidths.
ghost use Rattle.std.specs.Prelude.{◌≡◌};

/// The kind of an interface, which its name begins with.
#[derive(Clone, Copy, Debug, PartialEq, Eq)]
pub enum FaceKind {
    Ethernet,
    FastEthernet,
    GigabitEthernet,
    TenGigabitEthernet,
    Serial,
    Loopback,
}

impl FaceKind {
    ghost use Rattle.net_rules.specs.Kinds.{face_kind, default_bandwidth, is_serial, is_loopback};

    /// The kind of the interface with this name.
    pub fn of(name: &[u8]) -> FaceKind
        ensures { result ≡ face_kind name.now }
    {
        if name.starts_with(b"Ethernet") {
            return FaceKind::Ethernet;
        }
        if name.starts_with(b"FastEthernet") {
            return FaceKind::FastEthernet;
        }
        if name.starts_with(b"GigabitEthernet") {
            return FaceKind::GigabitEthernet;
        }
        if name.starts_with(b"TenGigabitEthernet") {
            return FaceKind::TenGigabitEthernet;
        }
        if name.starts_with(b"Serial") {
            return FaceKind::Serial;
        }
        FaceKind::Loopback
    }

    /// The default bandwidth, in kbit/s.
    pub fn default_bandwidth(self) -> u32
        ensures { result ≡ default_bandwidth self }
    {
        match self {
            FaceKind::Ethernet => 10_000,
            FaceKind::FastEthernet => 100_000,
            FaceKind::GigabitEthernet => 1_000_000,
            FaceKind::TenGigabitEthernet => 10_000_000,
            FaceKind::Serial => 1_544,
            FaceKind::Loopback => 8_000_000,
        }
    }

    /// Whether it is a serial interface, whose OSPF network type is point-to-point unless a line
    /// says otherwise.
    pub fn is_serial(self) -> bool
        ensures { result ≡ is_serial self }
    {
        matches!(self, FaceKind::Serial)
    }

    /// Whether it is a loopback, which is no link's end.
    pub fn is_loopback(self) -> bool
        ensures { result ≡ is_loopback self }
    {
        matches!(self, FaceKind::Loopback)
    }
}
