// The explanation for programs in C (include/sneupelaar.h): a refusal goes out as its number and place, the head that decided as a count.
// It stands here and not in `sneupelaar`: what is called from two functions of one archive is compiled as a function apart, and settling
// would take a call and 280 bytes of stack more.
ghost use Rattle.std.specs.Prelude.{◌≡◌, ℕ, ◌<◌, Some};
ghost use Rattle.rules.specs.Explanation as Explanation;
ghost use Rattle.explain.specs.HandedOut.{explanation_of, head_counted};

// Stays numbers: the C interface.
#[repr(C)]
#[derive(Drop)]
pub struct NumberedExplained {
    pub number: u64,
    pub place: u64,
    pub heads: [i64; 5],
    pub decided: u64,
}

// The head that decided, counted from 1; 0 where none did.
fn head_number(decided: Option<usize>) -> u64
    requires { (k : ℕ) → decided ≡ Some k → k < 5 }
    ensures { head_counted result ≡ decided }
{
    match decided {
        Some(place) => place as u64 + 1,
        None => 0,
    }
}

// Explains a member's charge.
pub fn sneupelaar_explain(file: &[u8], member: u32) -> NumberedExplained
    ensures { explanation_of result ≡ Explanation.explain file.now member }
{
    match crate::explain(file, member) {
        Ok(told) => {
            // An array that a struct has goes into a local first: no proof is made of it otherwise.
            let heads = told.heads;
            NumberedExplained {
                number: 0,
                place: 0,
                heads,
                decided: head_number(told.decided),
            }
        }
        Err(refusal) => NumberedExplained {
            number: refusal.number(),
            place: refusal.place() as u64,
            heads: [0; 5],
            decided: 0,
        },
    }
}
