// Where a text is cut: the standard library's methods, with what they give said by a function of the text.
ghost use Rattle.std.specs.Prelude.{◌≡◌, ◌<◌};
ghost use Rattle.std.specs.Option.{option_map};
ghost use Rattle.trigger.specs.Reading.{parted, both, before_sign};

// What stands before and after the first such character, if there is one.
#[tactic(auto, using(std::proofs::lemmas::Str::Pattern::split_once_first))]
pub(crate) fn cut_at(text: &str, mark: char) -> Option<(&str, &str)>
    requires { mark < 128 }
    ensures { both result ≡ parted mark text.now }
{
    text.split_once(mark)
}

// What stands before the `%` at the end, if there is one.
pub(crate) fn before_sign(text: &str) -> Option<&str>
    ensures { option_map (λ x. x.now) result ≡ before_sign text.now }
{
    text.strip_suffix('%')
}
