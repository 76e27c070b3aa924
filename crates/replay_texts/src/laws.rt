//! The law of texts: a function without a body, whose contract is the law.
ghost use Rattle.replay_texts.specs.Texts.{MessagesStand, TextsStand, PackagesStand};

/// The law of texts: words without a line feed and a carriage return, and a message after them that holds no line feed and ends with
/// no carriage return, are a line that is cut out as it is. A text that doesn't break a block is cut out of it as it is, and so are the
/// digits of a package that isn't too long.
pub fn law_of_script_texts()
    ensures messages { MessagesStand }
    ensures texts { TextsStand }
    ensures packages { PackagesStand }
{}
