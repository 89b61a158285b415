ghost use Rattle.std.specs.Prelude.{List};
ghost use Rattle.amf_options.specs.Words.{Text, Given, HasOptions, AreNames, HaveSameValues};

/// Whatever options words give, each has one value, or is given by none.
pub fn options_have_one_value()
    ensures { (options words : List Text) (given also : Given) → AreNames options → HasOptions options words given → HasOptions options words also → HaveSameValues given also }
{}
