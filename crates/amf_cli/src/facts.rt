ghost use Rattle.amf_cli.specs.WorkedServe.{ServeRows};

/// A worked fact of `serve`: its line.
pub fn serve_rows()
    ensures { ServeRows }
{}
