// What every program does before its work.
ghost use Rattle.std.specs.Prelude.{◌≡◌, true};
ghost use Rattle.program.specs.Arguments.{is_work};

use crate::input::Source;
use crate::system::System;
use outcomes::Progress;
use program::Asked;

impl System<'_> {
    // Says what the arguments ask for, where it is not the work. Else opens the input, and does the work on it, which may ask that the
    // arguments ask for it.
    pub fn run<F: FnOnce(Asked, &Source, Progress)>(self, work: F)
        requires { (asked : _) (source : _) (progress : _) → is_work asked.task ≡ true → F.pre work asked source progress }
    {
        let asked = self.asked();
        if !program::is_work(asked.task) {
            self.answer(asked);
            return;
        }
        let mut name = [0u8; 4096];
        let Some(mut source) = self.open(asked, &mut name) else {
            return;
        };
        source.say_awaiting();
        let progress = source.progress_of(asked);
        work(asked, &source, progress);
    }
}
