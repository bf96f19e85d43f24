//! The fields of a request's head that matter here: whom it is sent to, from which page, and how long its body is.
ghost use Rattle.std.specs.Prelude.{◌≡◌, ◌++◌, ◌↔◌, ◌<◌, ◌^◌, IsTrue, codes, decimal};

use httparse::Header;
use rbg_base::number_of_decimal;
use rbg_wire::after_text;

/// What the fields of a head say.
#[derive(Clone, Copy)]
pub(crate) struct Fields<'a> {
    /// Whom the request is sent to.
    pub host: Option<&'a [u8]>,
    /// The page from which it comes, if one is named.
    pub origin: Option<&'a [u8]>,
    /// The bytes of its body.
    pub length: u64,
    /// Whether a field is there twice, or isn't of its form, or a body without a length is announced.
    pub is_wrong: bool,
}

impl<'a> Fields<'a> {
    /// The fields of these headers.
    pub(crate) fn of(headers: &[Header<'a>]) -> Fields<'a> {
        let mut fields = Fields {
            host: None,
            origin: None,
            length: 0,
            is_wrong: false,
        };
        for header in headers {
            fields = fields.with(header.name, header.value);
        }
        fields
    }

    /// The same with one field more.
    fn with(self, name: &str, value: &'a [u8]) -> Fields<'a> {
        if name.eq_ignore_ascii_case("host") {
            self.with_host(value)
        } else if name.eq_ignore_ascii_case("origin") {
            self.with_origin(value)
        } else if name.eq_ignore_ascii_case("content-length") {
            self.with_length(value)
        } else if name.eq_ignore_ascii_case("transfer-encoding") {
            self.wrong()
        } else {
            self
        }
    }

    fn wrong(self) -> Fields<'a> {
        let mut fields = self;
        fields.is_wrong = true;
        fields
    }

    fn with_host(self, value: &'a [u8]) -> Fields<'a> {
        let mut fields = self;
        fields.is_wrong = fields.is_wrong || fields.host.is_some();
        fields.host = Some(value);
        fields
    }

    fn with_origin(self, value: &'a [u8]) -> Fields<'a> {
        let mut fields = self;
        fields.is_wrong = fields.is_wrong || fields.origin.is_some();
        fields.origin = Some(value);
        fields
    }

    fn with_length(self, value: &'a [u8]) -> Fields<'a> {
        let Some(length) = number_of_decimal(value) else {
            return self.wrong();
        };
        let mut fields = self;
        fields.is_wrong = fields.is_wrong || fields.length != 0;
        fields.length = length;
        fields
    }

    /// Whether the request is sent to this port of 127.0.0.1, and from no page but one of it.
    pub(crate) fn is_let_in(&self, port: u16) -> bool {
        let is_sent_here = match self.host {
            Some(host) => is_own_host(port, host),
            None => false,
        };
        let is_from_here = match self.origin {
            Some(origin) => is_own_origin(port, origin),
            None => true,
        };
        is_sent_here && is_from_here
    }
}

/// Whether a request with this `Host` is sent to this port of 127.0.0.1 by that name.
#[tactic(auto, using(rbg_wire::proofs::ByteLemmas::same_end))]
pub fn is_own_host(port: u16, host: &[u8]) -> bool
    ensures { IsTrue result ↔ (host.now ≡ codes "127.0.0.1:" ++ decimal port) }
{
    match after_text(b"127.0.0.1:", host) {
        Some(digits) => is_number(port, digits),
        None => false,
    }
}

/// Whether the digits are those of the number.
#[tactic(auto, using(rbg_base::proofs::Common::decimal_injective))]
fn is_number(number: u16, digits: &[u8]) -> bool
    ensures { IsTrue result ↔ (digits.now ≡ decimal number) }
{
    match number_of_decimal(digits) {
        Some(read) => read == u64::from(number),
        None => false,
    }
}

/// Whether a request with this `Origin` comes from a page of this port of 127.0.0.1.
pub fn is_own_origin(port: u16, origin: &[u8]) -> bool
    ensures { IsTrue result ↔ (origin.now ≡ codes "http://" ++ (codes "127.0.0.1:" ++ decimal port)) }
{
    match after_text(b"http://", origin) {
        Some(host) => is_own_host(port, host),
        None => false,
    }
}
