// How an answer is handed over: the number of its refusal is returned, and its value is stored behind a pointer.
ghost use Rattle.std.specs.Prelude.{◌≡◌};
ghost use Rattle.refusal.specs.Told.{told_by, number_told};
ghost use Rattle.exports.specs.Behind.{behind};

use refusal::Cause;

// The number of an answer's refusal, 0 where it has none.
pub fn number_of<T: Copy>(answer: Result<T, Cause>) -> u8
    ensures { result ≡ number_told (told_by answer) }
{
    match answer {
        Ok(_) => 0,
        Err(cause) => cause.into(),
    }
}

// The same, and an answer's value is stored.
pub fn put<T: Copy>(answer: Result<T, Cause>, place: &mut T) -> u8
    ensures number { result ≡ number_told (told_by answer) }
    ensures value { place.new ≡ behind (told_by answer) place.old }
{
    match answer {
        Ok(value) => {
            *place = value;
            0
        }
        Err(cause) => cause.into(),
    }
}
