// The services of document 01: GSM registration, GPRS registration, PDP activation and SMS. A
// caller gives a number; below the check of the range a service is one of four.
#![tactic(auto)]

ghost use Rattle.std.specs.Prelude.{◌≡◌, ◌<◌};
ghost use Rattle.services.specs.Services.{index_of, ServiceOf};

// A service.
#[derive(Clone, Copy, Debug, PartialEq, Eq)]
pub enum Service {
    Gsm,
    Gprs,
    Pdp,
    Sms,
}

// A number that no service has.
#[derive(Clone, Copy, Debug, PartialEq, Eq)]
pub struct NoService;

impl Service {
    // Its number, and its place in a group of four.
    pub fn index(self) -> usize
        ensures value { result ≡ index_of self }
        ensures bound { result < 4 }
    {
        match self {
            Service::Gsm => 0,
            Service::Gprs => 1,
            Service::Pdp => 2,
            Service::Sms => 3,
        }
    }
}

impl TryFrom<u32> for Service {
    type Error = NoService;

    ghost try_from_gives = { ServiceOf };

    fn try_from(number: u32) -> Result<Service, NoService> {
        match number {
            0 => Ok(Service::Gsm),
            1 => Ok(Service::Gprs),
            2 => Ok(Service::Pdp),
            3 => Ok(Service::Sms),
            _ => Err(NoService),
        }
    }
}
