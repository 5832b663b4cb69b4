// Steps of a course.
ghost use Rattle.std.specs.Prelude.{◌≡◌, fold};

use crate::traits::Course;

// The state after all the letters.
pub fn after<A: Course>(course: &A, from: A::State, letters: &[u8]) -> A::State
    ensures { result ≡ fold (A.Course.moves course.now).next from letters.now }
{
    letters
        .iter()
        .fold(from, |state, letter| course.next(&state, *letter))
}
