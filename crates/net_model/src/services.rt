//! Services: a protocol with a destination port, as one number, and ranges of them.
ghost use Rattle.std.specs.Prelude.{◌≡◌, ◌↔◌, ◌^◌, ◌<◌, ◌≤◌, IsTrue, IsSome, IfSome};

/// The last service: port 65535 of protocol 255.
const LAST: u32 = 0xff_ffff;

/// A range of services, from `low` to `high`.
///
/// A service is the number of a protocol (0 to 255, as IANA assigns them) times 65,536, plus a
/// destination port. Only TCP (protocol 6) and UDP (17) have ports; for every other protocol the
/// last two bytes mean nothing.
#[derive(Clone, Copy, Debug, PartialEq, Eq)]
pub struct Service {
    pub low: u32,
    pub high: u32,
    pub ghost ordered: { low ≤ high },
    pub ghost in_range: { high < 2 ^ 24 },
}

impl Service {
    ghost use Rattle.net_model.specs.Services.{serves, is_service_inside, IsServiceInside};
    ghost use Rattle.net_model.specs.Services.{services_meet, ShareService, services};
    ghost use Rattle.net_model.specs.Services.{whole_service};

    /// The range from the one service to the other, or `None` where the first is above the second
    /// or one is out of range.
    pub fn new(low: u32, high: u32) -> Option<Service>
        ensures valid { IsSome result ↔ ((low ≤ high) × (high < 2 ^ 24)) }
        ensures value { IfSome result (λ s. (s.low ≡ low) × (s.high ≡ high)) }
    {
        if low > high || high > LAST {
            return None;
        }
        Some(Service { low, high })
    }

    /// The range of all services.
    pub fn whole() -> Service
        ensures { result ≡ whole_service }
    {
        Service { low: 0, high: LAST }
    }

    /// Whether the range has a service.
    pub fn covers(&self, service: u32) -> bool
        ensures { result ≡ serves self.now service }
    {
        self.low <= service && service <= self.high
    }

    /// Whether the two ranges are the same.
    pub fn is(&self, other: &Service) -> bool
        ensures { IsTrue result ↔ (self.now ≡ other.now) }
    {
        self.low == other.low && self.high == other.high
    }

    /// Whether each service of this range is one of the other's.
    pub fn inside(&self, other: &Service) -> bool
        ensures sets { IsTrue result ↔ IsServiceInside self.now other.now }
        ensures test { result ≡ is_service_inside self.now other.now }
    {
        other.low <= self.low && self.high <= other.high
    }

    /// Whether some service is in both ranges.
    pub fn meets(&self, other: &Service) -> bool
        ensures sets { IsTrue result ↔ ShareService self.now other.now }
        ensures test { result ≡ services_meet self.now other.now }
    {
        self.low <= other.high && other.low <= self.high
    }

    /// The number of the range's services.
    pub fn size(&self) -> u32
        ensures { result ≡ services self.now }
    {
        self.high - self.low + 1
    }
}
