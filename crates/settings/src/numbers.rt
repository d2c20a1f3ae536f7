ghost use Rattle.std.specs.Prelude.{◌≡◌};
ghost use Rattle.std.specs.Char.{is_ascii_digit};
ghost use Rattle.std.specs.List.{list_all};
ghost use Rattle.settings.specs.Numbers.{is_number, number_by};

/// A number is written in at most so many digits.
pub const MOST_DIGITS: usize = 10;

/// At least so many workers trace a heap.
pub const LEAST_WORKERS: u32 = 1;

/// So many workers trace a heap, where nothing else is asked for.
pub const USUAL_WORKERS: u32 = 1;

/// Paths may be shown with at most so many violations of a collection.
pub const MOST_PATHS: u32 = 10_000;

/// The number that the text says in 1 to 10 digits, where it is one from `least` to `most`.
#[tactic(auto, unfolding(crate::specs::Numbers::number_by))]
pub fn number_by(text: &str, least: u32, most: u32) -> Option<u32>
    ensures { result ≡ number_by least most text.now }
{
    if !is_number(text) {
        return None;
    }
    match text.parse::<u32>() {
        Ok(number) if least <= number && number <= most => Some(number),
        _ => None,
    }
}

// Whether the text is a number as it may be written: 1 to 10 digits.
fn is_number(text: &str) -> bool
    ensures { result ≡ is_number text.now }
{
    let digits = text.as_bytes();
    1 <= digits.len() && digits.len() <= MOST_DIGITS && are_digits(digits)
}

fn are_digits(bytes: &[u8]) -> bool
    ensures { result ≡ list_all is_ascii_digit bytes.now }
{
    bytes.iter().all(|b| b.is_ascii_digit())
}
