//! What holds of every picture. Each law is the contract of a function that does nothing.

ghost use Rattle.replay_picture.specs.Laws.{BarsAreApart, TextsStayTexts};

/// Bars of one node that share a second share no lane.
pub fn bars_are_apart()
    ensures { BarsAreApart }
{}

/// Texts of people stay texts.
pub fn texts_stay_texts()
    ensures { TextsStayTexts }
{}
