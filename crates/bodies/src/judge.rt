//! The search for the first fault in a list: the records of a table, or the bytes of each record of a body.

ghost use Rattle.std.specs.Prelude.{◌≡◌, ℕ, ◌<◌, ◌≤◌, length};
ghost use Rattle.bodies.specs.Bodies.{Verdict, judged};

use records::fault::Fault;

/// Judges one element of a list, of which it is told how many stand before it.
// A trait and no closure: contracts name the verdict of a type, and that of a closure would have to be told in each of them.
pub trait Judge<T> {
    ghost verdict: { Self → ℕ → T → Verdict };

    fn judge(&self, index: usize, element: &T) -> Result<(), Fault>
        requires few { index < 960 }
        ensures { result ≡ verdict self.now index element.now };
}

/// The first fault in a list.
pub fn judge_all<T, J: Judge<T>>(judge: &J, list: &[T]) -> Result<(), Fault>
    requires few { length list.now ≤ 960 }
    ensures { result ≡ judged (J.Judge.verdict judge.now) 0 list.now }
{
    for (index, element) in list.iter().enumerate() {
        judge.judge(index, element)?;
    }
    Ok(())
}
