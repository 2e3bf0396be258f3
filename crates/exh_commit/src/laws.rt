ghost use Rattle.exh_commit.specs.AloneLaws.{FilesAloneHaveBytes};

/// A file that stands for some bytes without its log has them, and behind them less than a block.
pub fn files_alone_have_bytes()
    ensures { FilesAloneHaveBytes }
{}
