// The check character of a donation number, by ISO 7064 modulo 37,2.
#![tactic(auto)]

ghost use Rattle.std.specs.Prelude.{◌≡◌};
ghost use Rattle.text.specs.Bytes.{check_character};
ghost use Rattle.text.specs.Decides.{Decides};
ghost use Rattle.check37.specs.Check.{worth, character, check_worth, check_of, DonationNumber, Checks};
ghost use Rattle.check37.specs.Laws.Worth.{Leaves};
ghost use Rattle.check37.specs.Laws.Number.{Digits};

fn worth(b: u8) -> u8
    ensures { result ≡ worth b }
{
    match b {
        b'0'..=b'9' => b - b'0',
        b'A'..=b'Z' => b - b'A' + 10,
        _ => 36,
    }
}

fn character(w: u8) -> u8
    ensures { result ≡ character w }
{
    match w {
        0..=9 => w + b'0',
        10..=35 => w - 10 + b'A',
        _ => b'*',
    }
}

// Thirteen characters stay below the bound, so that a donation number costs one remainder, at the end.
fn remainder(s: &[u8]) -> u8
    ensures { Leaves 0 s.now result }
{
    let mut sum: u32 = 0;
    for b in s {
        if 1000000 < sum {
            sum = sum % 37;
        }
        sum = (sum + worth(*b) as u32) * 2;
    }
    (sum % 37) as u8
}

// Two inner building blocks, no entry points: for bytes that the caller knows to be a donation number; `check_character` takes any.
pub fn check_worth(s: &[u8]) -> u8
    ensures { result ≡ check_worth s.now }
{
    (38 - remainder(s)) % 37
}

pub fn check_of(s: &[u8]) -> u8
    ensures { result ≡ check_of s.now }
{
    character(check_worth(s))
}

// The check's set: upper, digit and *.
pub fn is_check_character(b: u8) -> bool
    ensures { result ≡ check_character b }
{
    text::is_upper(b) | (text::is_digit(b) | (b == b'*'))
}

fn are_digits(s: &[u8]) -> bool
    ensures { Decides result (Digits s.now) }
{
    s.iter().all(|b| text::is_digit(*b))
}

fn is_donation(s: &[u8]) -> bool
    ensures { Decides result (DonationNumber s.now) }
{
    if s.len() != 13 {
        return false;
    }
    text::is_first_character(s[0]) && are_digits(&s[1..])
}

// The check character of any bytes, if they are a donation number.
pub fn check_character(s: &[u8]) -> Option<u8>
    ensures { Checks s.now result }
{
    if is_donation(s) {
        Some(check_of(s))
    } else {
        None
    }
}
