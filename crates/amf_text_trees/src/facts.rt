ghost use Rattle.amf_text_trees.specs.TreeLaws.{TreeLawsHold};
ghost use Rattle.amf_text_trees.specs.WorkedTrees.{TreeRows};

/// Worked texts: what has been gathered at the end is what each means.
pub fn tree_rows()
    ensures { TreeRows }
{}

/// What has been gathered goes on token by token, beside what is asked for. Of JSON that means something it comes to what that means; at the
/// end of a text nothing is open, and where each label is one of a row the text means the graphs of what was gathered.
pub fn tree_laws()
    ensures { TreeLawsHold }
{}
