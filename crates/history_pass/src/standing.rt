// Values that stand for pushes.
ghost use Rattle.std.specs.Prelude.{◌≡◌, length};

/// A value that stands for a list of pushes, whether or not it holds them.
pub trait Standing {
    ghost use Rattle.std.specs.Prelude.{List};
    ghost use Rattle.profile_model.specs.declared.push.Push.{Push};

    ghost list: { Self → List Push };

    fn count(&self) -> u64
        ensures { result ≡ length (list self.now) };
}
