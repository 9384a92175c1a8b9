// What AT lines settle, on a buffer of the right length: NFM, Start Timer and the base intervals.
#![tactic(auto)]

ghost use Rattle.std.specs.Prelude.{◌≡◌, ◌≤◌, length};
ghost use Rattle.services.specs.Services.{index_of};
ghost use Rattle.backoff.specs.Backoffs.{stored, clear};
ghost use Rattle.settings.specs.Settings.{calmed, turned, timed_by};

use buffer::places::Buffer;
use buffer::{fields, places as at};
use services::Service;

// A service has no failure and no end.
fn calm(s: &mut Buffer, service: Service)
    ensures { s.new ≡ stored s.old (index_of service) clear }
{
    backoff::store(s, service, backoff::load(s, service).cleared());
}

// None of the four has.
fn calm_all(s: &mut Buffer)
    ensures { s.new ≡ calmed s.old }
{
    calm(s, Service::Gsm);
    calm(s, Service::Gprs);
    calm(s, Service::Pdp);
    calm(s, Service::Sms);
}

// NFM becomes a and Start Timer start; with a 0, failures and ends become 0.
#[tactic(auto, unfolding(crate::specs::Settings::turned))]
pub fn turn(s: &mut Buffer, a: u32, start: u32)
    ensures { s.new ≡ turned s.old a start }
{
    fields::set_flags(s, a, start);
    if a == 0 {
        calm_all(s);
    }
}

// The list becomes the intervals.
pub fn schedule(s: &mut Buffer, list: &[u32])
    requires { length list.now ≤ 10 }
    ensures { s.new ≡ timed_by s.old list.now }
{
    s[at::COUNT] = list.len() as u32;
    opening::intervals(s, list);
}
