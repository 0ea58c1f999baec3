//! The numbers of messages of HTTP and of connections.

ghost use Rattle.answer_head.specs.declared.answer.TheConstants as answer_head_answer;
ghost use Rattle.field_list.specs.declared.list.TheConstants as field_list_list;
ghost use Rattle.http_wire.specs.declared.limits.TheConstants as http_wire_limits;
ghost use Rattle.session.specs.declared.serve.TheConstants as session_serve;
ghost use Rattle.session.specs.declared.turn.TheConstants as session_turn;
ghost use Rattle.session_base.specs.declared.request.TheConstants as session_base_request;
ghost use Rattle.std.specs.Prelude.{◌≡◌};
ghost use Rattle.upstream_http.specs.declared.final_head.TheConstants as upstream_http_final_head;

/// The longest head, and how many header fields and line feeds it may have.
pub fn numbers_of_the_heads_of_messages()
    ensures feeds_max { http_wire_limits.FEEDS_MAX ≡ 66 }
    ensures fields_max { http_wire_limits.FIELDS_MAX ≡ 64 }
    ensures head_max { http_wire_limits.HEAD_MAX ≡ 16384 }
{}

/// The comma, the space and the tab (RFC 9110, section 5.6.1).
pub fn numbers_of_lists_in_header_fields()
    ensures comma { field_list_list.COMMA ≡ 44 }
    ensures space { field_list_list.SPACE ≡ 32 }
    ensures tab { field_list_list.TAB ≡ 9 }
{}

/// How many interim answers may come, and the first status of a final one.
pub fn numbers_of_the_answers_of_origins()
    ensures final_min { upstream_http_final_head.FINAL_MIN ≡ 200 }
    ensures interim_max { upstream_http_final_head.INTERIM_MAX ≡ 16 }
{}

/// The digit 0.
pub fn numbers_of_the_heads_of_answers()
    ensures digit_zero { answer_head_answer.DIGIT_ZERO ≡ 48 }
{}

/// The longest method.
pub fn numbers_of_requests()
    ensures method_max { session_base_request.METHOD_MAX ≡ 127 }
{}

/// How many requests one has, and the longest body of a request: 1 MiB.
pub fn numbers_of_connections()
    ensures turns_max { session_serve.TURNS_MAX ≡ 10000 }
    ensures body_limit { session_turn.BODY_LIMIT ≡ 1048576 }
{}
