//! What the meaning of a text rests on.

ghost use Rattle.qc_parse.specs.Laws.{TokensDecide, GapsDoNotMatter, FirstTokensRefuse};
ghost use Rattle.qc_parse.specs.Trees.{TreesAreSpelled, SpelledAreTrees, OneStatement, OneCondition};

/// A law, with no code: the tokens of a text decide its meaning, wherever they stand. Two texts with the same tokens, that both end behind them or
/// have a fault of one kind there, have the same tree but for the spans of a select's items, or the same refusal; and a refusal that has a
/// place stands at the same token in both. So white space and comments between tokens change neither tree nor refusal.
pub fn tokens_decide()
    ensures decides { TokensDecide }
{}

/// A law, with no code: white space or a comment between two tokens changes neither tree nor refusal, nor the token at which it stands. What stands
/// in front of it is to be the same tokens with it and without it: a space makes a comment of two dashes in front of it, and two words of one.
pub fn gaps_do_not_matter()
    ensures alike { GapsDoNotMatter }
{}

/// A law, with no code: where a text is refused at a place, some token stands there, or the text or its tokens end there. Where a token stands there
/// and one more behind it, each text with the same tokens up to these two is refused there too, whatever follows. It says nothing of what would
/// stand behind a text that is refused at its last token or at its end.
pub fn first_tokens_refuse()
    ensures refuse { FirstTokensRefuse }
{}

/// A law, with no code: a text that has a tree has no fault, and its tokens, from the first to the last, spell that tree by the productions of
/// the grammar, which say what stands behind what, and nothing of how a text is read.
pub fn trees_are_spelled()
    ensures spelled { TreesAreSpelled }
{}

/// A law, with no code: a text with no fault whose tokens spell a tree by the productions has that tree, but for the spans of a select's items. So
/// the texts with a tree are those that the productions spell.
pub fn spelled_texts_have_trees()
    ensures read { SpelledAreTrees }
{}

/// A law, with no code: by the productions the same tokens spell no two statements that differ in more than spans, and no two conditions. So a
/// text has at most one tree: AND, OR, NOT, BETWEEN and brackets leave no choice, however deep they may stand in each other.
pub fn texts_have_one_tree()
    ensures statement { OneStatement }
    ensures condition { OneCondition }
{}
