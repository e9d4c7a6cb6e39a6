// What holds of traces.
ghost use Rattle.nv_trace.specs.Trace.{IsPrefixFree};

/// No trace is a proper prefix of another.
pub fn no_trace_begins_another()
    ensures { IsPrefixFree }
{}
